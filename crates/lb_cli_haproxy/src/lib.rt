//! The jobs `sheet` and `commands` for a running HAProxy: the sheet of what its table holds, and the commands that make a plan so.
//!
//! Promised: `sheet_answer` gives a sheet only where it stands for the entries and servers of HAProxy's answers, as `specs/Sheets.antt`
//! says, and `commands_answer` gives commands only where they move just the entries that the plan moves, each to the server that it has
//! by the plan, as `specs/Commands.antt` says. Start at these two, and at `sheet_file` and `commands_file`, which find the jobs' files
//! and return the program's exit status.
#![tactic(auto)]

mod answer;
mod clients;
mod commands;
mod jobs;
mod moves;
mod plan_farm;
mod refusal;
mod sets;
mod sheet;
mod sheet_farm;

pub use answer::Answer;
pub use clients::Client;
pub use commands::commands_answer;
pub use jobs::{commands_file, sheet_file};
pub use sheet::sheet_answer;

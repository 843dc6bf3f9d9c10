//! The jobs of the program `stickylb`, each over a reader and a writer, so that what it writes for a file's bytes is a
//! stated function of these bytes.
//!
//! Promised: `check` writes the report of `specs/Checking.antt` for its configuration, and nothing else; `check_all` writes that of
//! `specs/CheckingAll.antt`, which has further faults, and hints and warnings of which nothing is said. Of a report that can't be written a beginning goes out; nothing goes out if the
//! job comes to no report. Start there, and at `perform`, which finds the job's files and returns the program's exit status, that of
//! `status_of`. The jobs on sheets and plans are those of `lb_cli_format`, `lb_cli_plans` and `lb_cli_verify`, re-exported here. `plans_are_verified`
//! says that what `plan` writes is best for `verify` too. `replay` is that of `lb_replay`.
#![tactic(auto)]

mod check_all_job;
mod check_job;
mod jobs;
mod laws;

pub use check_all_job::{Asides, MOST_FAULTS, check_all};
pub use check_job::check;
pub use jobs::{KeptPins, Performed, perform};
pub use laws::{
    check_all_begins_as_check, no_other_fault_is_left, one_fault_is_one, plans_are_verified,
};
pub use lb_cli_ends::{JobError, end, status_of};
pub use lb_cli_format::format;
pub use lb_cli_plans::{VERSION, plan, plan_tables, version};
pub use lb_cli_verify::{Finding, sheet_for, verify, verify_for};

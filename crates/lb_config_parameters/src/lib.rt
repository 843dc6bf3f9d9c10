//! The lines `server`, `default-server` and `stick-table` of a configuration: parameters in any order, each with its value.
//!
//! Promised: `read_server`, `read_default_server` and `read_stick_table` give exactly what `specs/ServerLines` and
//! `specs/StickTables` give, the line's value or its first fault. What isn't said stays apart from what is: defaults are filled in
//! when all lines are read. Start at `read_server`. Private to `lb_config`.
#![tactic(auto)]

mod options;
mod options_state;
mod parameter;
mod server_line;
mod stick_table;
mod table_draft;

pub use options::ServerOptions;
pub(crate) use parameter::Parameter;
pub use server_line::{ServerLine, read_default_server, read_server};
pub use stick_table::{StickTable, read_stick_table};

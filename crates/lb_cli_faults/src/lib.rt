//! How the jobs of the program `stickylb` print the fault of a configuration.
//!
//! Promised: a configuration's fault is printed as `specs/Faults.antt` says, by every job that reads one. Start at
//! `config_fault_line`. What prevents such a job is a `JobError` of `lb_cli_ends`. Private to `lb_cli` and the crates of its jobs.
#![tactic(auto)]

mod config_fault;

pub use config_fault::{config_fault_line, push_line_label};
pub use lb_cli_ends::JobError;

//! How a job of a program ends: what may prevent it, how that is reported, and the exit status; and the files that jobs read.
//!
//! Promised: `status_of` and `end` give the status of `specs/Statuses.antt` for what came of a job. `whole` gives all bytes of a file,
//! or reports that they can't be read. Start at `JobError`. Private to `lb_cli` and the crates of its jobs.
#![tactic(auto)]

mod ends;
mod files;
mod job_error;

pub use ends::{end, status_of};
pub use files::{opened, whole};
pub use job_error::JobError;

//! The jobs of the program `stickylb` that plan for a sheet, each over a reader and a writer, so that what it writes for a file's bytes
//! follows from these bytes; and the line of the program's version.
//!
//! Promised: `plan` writes an answer of `specs/Planning.antt` for its sheet, and `plan_tables` one of `specs/Tables.antt`, and nothing
//! else. Of an answer that can't be written a beginning goes out; nothing goes out if a job comes to no answer. A plan that they write
//! is best. The jobs that judge plans are those of `lb_cli_verify`. Start at `plan`, and at `plan_file`, which finds the job's file
//! and returns the program's exit status.
#![tactic(auto)]

mod jobs;
mod plan_job;
mod version_job;

pub use jobs::{plan_file, tables_file, tell_version};
pub use plan_job::{plan, plan_tables};
pub use version_job::{VERSION, version};

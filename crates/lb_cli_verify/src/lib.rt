//! The jobs of the program `stickylb` that judge plans, each over a reader and a writer: what is found of a plan's text, for itself or
//! for a given sheet, and the line that reports it.
//!
//! Promised: `verify` writes the line of `specs/Verify.antt` for its text, and so does `verify_for`, by a sheet that `sheet_for` read;
//! and nothing else. Of an answer that can't be written a beginning goes out; nothing goes out if a job comes to no answer. A plan
//! that they call best is best. It stands on the checker, and on no planner and no command line, so that it is proved while these are.
//! Start at `verify`, and at `verify_file`, which finds the job's file and returns the program's exit status.
#![tactic(auto)]

mod finding;
mod jobs;
mod sheet_job;
mod verify_job;

pub use finding::Finding;
pub use jobs::{verify_file, verify_files};
pub use sheet_job::{sheet_for, verify_for};
pub use verify_job::verify;

//! The job `format` of the program `stickylb`, over a reader and a writer: the one text of the sheet that a lenient text means.
//!
//! Promised: `format` writes an answer of `specs/Formatting.antt` for its file's bytes, and nothing else. Start at `format`, and at
//! `format_file`, which finds the job's file and returns the program's exit status.
#![tactic(auto)]

mod format_job;
mod jobs;

pub use format_job::format;
pub use jobs::format_file;

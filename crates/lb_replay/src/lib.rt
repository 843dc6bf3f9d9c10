//! The job `replay`: a backend's day from a script, one answer for each thing that the script asks for.
//!
//! Promised: what `replay` writes is that of `specs/Replays.antt` for the bytes of a configuration and of a script: the texts of the
//! replies of the backend's history, or the configuration's fault, or the first bad line. Memory grows with the pins, the journal and
//! the sheets that the script takes, and not with the script. Start at `replay`, and at `specs/Answers.antt`.
#![tactic(auto)]

mod answers;
mod day;
mod farm;
mod job;
mod pieces;
mod shows;

pub use job::replay;

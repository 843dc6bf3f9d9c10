//! A writer that counts its failures, so that a refusal to write can be distinguished from one that never tried.
//!
//! Promised: `Counted` passes each write on and counts those that failed or took nothing. `write_all` writes all of its bytes,
//! or else a write failed and a beginning of them went out. Start at `Counted`; the words are in `specs/Writers.antt`.
#![tactic(auto)]

mod counted;

pub use counted::Counted;

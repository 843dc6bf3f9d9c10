//! What an operator's program knows of a backend: a trait whose contracts state each call.
//!
//! Promised: a `Steer` is a `Mover`, and states also which changes were commanded through it, which pins were set and cleared, and what
//! was replied, as entries of the backend's journal; calls that were refused are counted. Its copies of pins and journal are of a moment after all of them,
//! and a copy of the journal has all that it keeps.
//! Start at `Steer`, whose words are in `specs/Steering.antt`.
#![tactic(auto)]

mod journal;
mod steer;

pub use journal::JournalCopy;
pub use steer::Steer;

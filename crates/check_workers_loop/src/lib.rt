//! The loop of a thread that checks the servers of a backend.
//!
//! Promised: `check_until_stopped` makes rounds of `check_workers_round`, one after another, and reports to its `Flips` exactly the
//! servers that a check made go up or down. So each result was filed under the server that was probed, no server was probed twice at
//! once, and nothing else was asked of the backend. That it ends at a stop is tested. Start at `check_until_stopped`, whose words are in `specs/Loops.antt`.
#![tactic(auto)]

mod flips;
mod looping;

pub use flips::{Flipped, Flips, flip_line};
pub use looping::check_until_stopped;

//! Desks of many threads tried by running their journals again once they are closed.
//!
//! What the threads ask is made up. Promised: nothing but that it is safe. Start at `try_threads` and `judge`.
#![tactic(auto)]

mod dice;
mod events;
mod farms;
mod judging;
mod threads;
mod visits;

pub use farms::backend_in;
pub use judging::{JournalFault, judge};
pub use threads::{ThreadsTried, try_threads};

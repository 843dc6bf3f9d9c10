//! The running desk of one backend: one event is one step of its machine, and is in its journal with its reply.
//!
//! Promised: an event is refused when out of memory, or with 81 exactly where the desk is exhausted, and then changes nothing. Else it
//! is a step, with the reply that is given, of every state that the desk shows. Its entry is the newest of the journal, which is the
//! end of the log of all events that were taken. So what is proved of logs holds of every desk, however little its journal keeps.
//! Start at `Desk`, whose words are in `specs/Desk.antt`.
#![tactic(auto)]

mod act;
mod connected;
mod desk;
mod planning;
mod taken;
mod world;

pub use desk::Desk;
pub use taken::{Taken, TakenPlan};
pub use world::run_world;

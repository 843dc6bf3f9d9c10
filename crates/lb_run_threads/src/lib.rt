//! The balancer's threads but those that answer operators: listeners, workers, checks and planners, and what starts them.
//!
//! Promised: each thread runs its loop under its conditions: a worker with a seat at the desk of each backend, in the backends' order,
//! the checks of a backend at that backend's desk. A planner makes at most as many tries of an evacuation as the configuration says. No
//! clause says which threads run and when they end; that is tested. Start at `start`, and at `threads` for what each does. Private to
//! `lb_run`.
#![tactic(auto)]

mod announcer;
mod calling;
mod starting;
mod threads;

pub use starting::{Started, start};

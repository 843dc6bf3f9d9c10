//! Moves pins off servers while traffic goes on: a sheet, a plan for it and its install, in turn, until one plan isn't stale.
//!
//! Promised: the contract of `evacuate` states what it asks of its `Mover`: at most as many tries as it may make. Each is a sheet and
//! then a plan that the check accepts for that sheet, of its version; all but the last let everyone else in while they plan. The
//! answer is the score of the plan that was installed. Start at `evacuate`, whose words are in `specs/Evacuations.antt`.
#![tactic(auto)]

mod evacuating;

pub use evacuating::{Evacuation, evacuate};

//! A planner that works when it is notified: the rounds of its thread, without the thread.
//!
//! Promised: `plan_when_told` asks its `Mover` for one evacuation for each notice that it hears, one after another, and for nothing
//! else. Bells notify it, from any thread and without waiting; rings that nobody has heard yet are one notice. Once all bells are
//! gone, and the last notice is heard, it returns. Start at `plan_when_told`, whose words are in `specs/Told.antt`.
#![tactic(auto)]

mod bell;
mod planner;

pub use bell::{Bell, Notices};
pub use planner::plan_when_told;

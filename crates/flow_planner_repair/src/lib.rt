//! Repairs a placing of all pins that leaves some servers with more pins than room: pins are pushed to options with room along the
//! ways that cost least.
//!
//! Promised: `repair` ends with no server over its capacity, and keeps what `IsState` of `flow_planner_net` says. It makes at most
//! one push a pin, and at most as many looks as it says. Start at `repair`. Private to `flow_planner`.
#![tactic(auto)]

mod arcs;
mod forget;
mod label;
mod push;
mod relieve;
mod search;

pub use arcs::Arcs;
pub use label::Label;
pub use relieve::repair;

//! The network that the planner works on: a sheet's groups, the options that their pins have, and what these cost; and what follows
//! where the pins stand right.
//!
//! Promised: a network says what a group may do and at what cost, in the words of `specs/Networks.antt`. Where pins stand, and when
//! that is right, is in `specs/States.antt`. Two calls do nothing, and their contracts are laws. A state with no option over its room
//! is shown best by its prices (`specs/Slackness.antt`). Sums over the rows of a placing are sums over groups and options
//! (`specs/RowLists.antt`). Start at `Network`. Private to the crates `flow_planner` and `flow_planner_..`.
#![tactic(auto)]

mod laws;
mod network;

pub use laws::{states_are_shown, sums_over_rows};
pub use network::{MOST_OPTIONS, MOST_UNPLACED_COST, Network};

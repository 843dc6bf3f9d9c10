//! Which server a request gets, as a desk decides it that runs: from the farm, the book, the rules and the cursor.
//!
//! Promised: `pin_pick` and `loose_pick` pick as the definitions of `lb_desk_model` say, at every state that the desk
//! shows. A pick allocates nothing, and looks at each server at most three times; no pin and no round is gone through.
//! Start at `pin_pick`.
#![tactic(auto)]

mod balancing;
mod candidates;
mod free;
mod least;
mod pick;
mod picking;
mod round;
mod servers;

pub use pick::Pick;
pub use picking::{loose_pick, pin_pick};
pub use servers::{are_below, are_members_below, first_in, set_of};

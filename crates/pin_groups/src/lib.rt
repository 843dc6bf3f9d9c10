//! The sheet of a view, and assignments that follow a plan.
//!
//! Promised: `group` gives the sheet that stands for a view, and `sheet_of` the same one from counts alone. `spread` gives
//! an assignment that agrees with a plan for that sheet. Start at `group`; what "stands for" means is in `cert_check_law`,
//! and what "agrees" means in `pin_set`.
#![tactic(auto)]

mod counted;
mod grouping;
mod listed;
mod rising;
mod spreading;

pub use counted::{one_sheet_for_a_view, sheet_of};
pub use grouping::group;
pub use spreading::spread;

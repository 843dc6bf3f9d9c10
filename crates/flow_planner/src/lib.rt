//! The planner: where each pin goes. As few pins as possible go without a server; of the plans with this property it gives one that
//! moves pins at the least cost.
//!
//! Promised: `plan` answers for every sheet, unless memory is short, and a checker accepts each plan that it gives. It pushes pins no
//! more often than there are pins, and the looks that it takes for that are bounded. Start at `plan`.
#![tactic(auto)]

mod homes;
mod level;
mod placing;
mod planned;
mod planner;
mod rows;
mod sheet_parts;
mod solving;
mod spread;
mod spreading;
mod written;

pub use planned::Planned;
pub use planner::plan;

//! The checker and the planner against all assignments of the pins, on small farms: at most 3 servers and 5 pins, with costs 1 and 2.
//!
//! `Farms` goes over all farms of some bounds that differ in what matters. `view_agrees` and `sheet_agrees` say whether the checker
//! and the planner judge a farm as a try of all assignments does. Promised is safety alone, and that the plans which are made for
//! this are plans (`Draft`). README.md says what is tried, and how many farms there are. Start at `view_agrees`. Private to `bench`
//! and to crates of tests.
#![tactic(auto)]

mod assignments;
mod draft;
mod every;
mod farm;
mod farms;
mod judging;
mod rising;

pub use farm::{Farm, PINS, SERVERS};
pub use farms::{Bounds, Farms, Permitted};
pub use judging::{sheet_agrees, view_agrees};

//! A backend's servers and where its clients' entries are, as a view; its sheet; and where the entries go by a plan. Any
//! entry may go to any usable server, and each move costs 1.
//!
//! Promised: `farm_sheet` gives the sheet that stands for the farm, and `places_by` gives a best assignment exactly where the
//! check accepts the plan. Start at `farm_view`, whose definition is in `specs/Farms.antt`.
#![tactic(auto)]

mod can_be;
mod farm;
mod pins;
mod plans;

pub use farm::farm_view;
pub use plans::{farm_sheet, places_by};

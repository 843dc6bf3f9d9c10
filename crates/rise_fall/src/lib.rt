//! The health of one checked server, from the results of its checks.
//!
//! Promised: a server counts as up or down exactly as the whole list of its results since its base says. The base is
//! the start, the end of maintenance, or a health that was forced (`specs/Health.antt`). Start at `Health`.
#![tactic(auto)]

mod flip;
mod health;
mod laws;

pub use flip::Flip;
pub use health::{Health, MAX_STREAK};
pub use laws::each_health_has_its_results;

//! Views of numbered pins and servers, and plans spread over the pins of a view: what tests and measurements of whole
//! views start from.
//!
//! Promised: `spread_best` gives a best assignment exactly where the check accepts the plan. Start there. The crate
//! `dual_cert_rows` tries all assignments of small views with it.
#![tactic(auto)]

mod best;
mod numbered;

pub use best::spread_best;
pub use numbered::{PlainPin, numbered_view};

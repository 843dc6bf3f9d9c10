//! What a pin is, what an assignment of places to pins costs, and which assignments are best.
//!
//! Promised: `permitted`, `honoured` and `score` are their definitions in `specs/Pins.antt` and `specs/Assignments.antt`, and
//! `==` of two names decides whether they are one (`specs/Names.antt`). No call allocates except those that copy a key. Start at
//! `View`.
#![tactic(auto)]

mod pin;
mod pin_count;
mod pin_key;
mod place;
mod scoring;
mod table_pin;
mod totals;
mod view;

pub use pin::{Pin, PinId};
pub use pin_count::PinCount;
pub use pin_key::{KeyText, PinKey};
pub use place::{honoured, permitted};
pub use scoring::score;
pub use table_pin::TablePin;
pub use totals::Score;
pub use view::{View, ViewServer};

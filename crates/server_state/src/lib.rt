//! The servers of one backend: their settings, their health, and which of them may get pins.
//!
//! Promised: `Farm::serving` and `Farm::usable` are as `specs/Farm.antt` defines them, whatever changes and check
//! results came before; each change is refused exactly where it must be, and then changes nothing. A `Farm` that was
//! made allocates nothing. Start at `Farm`.
#![tactic(auto)]

mod change;
mod checked;
mod farm;
mod server;
mod settings;
mod usable;

pub use change::{Change, ChangeFault, Setting};
pub use checked::Checked;
pub use farm::Farm;
pub use settings::{AdminState, CheckSettings, ServerSettings};

//! What the configuration says of checks, as the code that makes them needs it.
//!
//! Promised: `checks_of` gives just the servers with `check`, each with its interval. `targets_of` gives where, how and how long each
//! of them is probed, as `specs/Targets.antt` says. Start there.
#![tactic(auto)]

mod checks;
mod targets;

pub use checks::checks_of;
pub use targets::targets_of;

//! Listeners: where clients and operators connect, and how an accept that fails is followed by the next.
//!
//! Promised: `OtherFiles` says which descriptors clients may have, so that enough are left for others, if `own + 2 * others + 2` files
//! may be open. What the system does no clause says. Tested: `listen` has the longest backlog that the system allows; what it accepts sends at once; an accept ends where nobody
//! comes, so that a stop is seen; what a `ClientListener` accepts doesn't block, and has its limits. Start at `listen`.
#![tactic(auto)]

mod client_listener;
mod listening;
mod open_files;
mod resting;

pub use client_listener::ClientListener;
pub use listening::{listen, listen_over, listen_within, with_tick};
pub use open_files::{OtherFiles, most_open_files};
pub use resting::{passes, rest_after};

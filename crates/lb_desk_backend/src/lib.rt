//! The machine of a backend of the configuration: here the core meets the configuration, and nowhere else.
//!
//! Promised: `backend_of` gives the backend that the machine opens with, as `specs/Configured.antt` says: the servers in their
//! order with their names and settings, the balance, `option allbackups`, and of the table its size, `expire` and `nopurge`.
//! Start at `specs/Configured.antt`.
#![tactic(auto)]

mod backend;
mod laws;
mod servers;

pub use backend::backend_of;
pub use laws::configured_backends_open_as_one;

//! The arguments of a line of a configuration: words from the left, numbers, times, sizes, names and addresses.
//!
//! Promised: each reader gives exactly what its function in `specs/` gives, the value or the first fault. Where a line's spelling
//! breaks off, that fault replaces the next word. Start at `Words`; the steps of readers that take every word of a
//! line are in `proofs/WordSteps`. Private to `lb_config`.
#![tactic(auto)]

mod address;
mod fault;
mod numbers;
mod words;

pub use address::{Endpoint, MAX_PORT, read_ipv4, read_listen_endpoint, read_server_endpoint};
pub use fault::{Fault, LineError};
pub use numbers::{MAX_MILLIS, read_number, read_size, read_time};
pub use words::{Words, is, read_name};

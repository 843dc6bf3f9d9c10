//! What the relay needs of real streams beyond a plain wire: bytes that were read before, limits on how long calls wait, and an end
//! that loses nothing.
//!
//! Promised: a `FrontedWire` gives the bytes that were read before it was made, and then those of the wrapped wire. A
//! `PatientStream` asks its `Patience` before each call how long that may wait: a `Deadline` is one limit over all calls together.
//! `StreamLimits` are set on a stream once, for each call alone. An `EagerStream` sets a stream to block where a call has to wait,
//! and not before. `end_gently` ends a stream so that the peer gets all that was sent. Start at `FrontedWire`, whose words are those
//! of `Wire`.
#![tactic(auto)]

mod deadline;
mod draining;
mod eager;
mod fronted;
mod limits;
mod patience;
mod patient;

pub use deadline::Deadline;
pub use draining::{Drained, drain, end_gently};
pub use eager::EagerStream;
pub use fronted::FrontedWire;
pub use limits::StreamLimits;
pub use patience::Patience;
pub use patient::PatientStream;

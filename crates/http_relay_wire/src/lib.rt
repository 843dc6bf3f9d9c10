//! Connections as the relay and the checks see them: what can be read, what was written, and how they failed.
//!
//! Promised: a `Wire`'s contract states its bytes where it knows them, counts its failures by four kinds, and says how
//! many reads are left. `write_all` writes all bytes, or a beginning of them and counts one failure. `ScriptedWire` is
//! a wire over memory that fails where a test wants it to, `SocketWire` one over a stream of std, which states no
//! bytes. Start at `Wire`, whose words are in `specs/Wires.antt`.
#![tactic(auto)]

mod fault;
mod scripted;
mod socket;
mod wire;

pub use fault::{FaultCounts, WireFault};
pub use scripted::{Script, ScriptedWire};
pub use socket::SocketWire;
pub use wire::{Wire, write_all};

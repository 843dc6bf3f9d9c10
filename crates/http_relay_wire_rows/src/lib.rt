//! Wires; bodies and responses over wires that end, fail, or give their bytes in pieces; the numbers and texts of faults. Streams: bytes
//! that were read before, limits on waits, and ends, over scripted wires and over sockets.
//!
//! Tests alone. Whole requests are in `http_relay_serve_rows`. Start at `bodies`, and for streams at `fronts`.
#![tactic(auto)]

#[cfg(test)]
mod answers;
#[cfg(test)]
mod bodies;
#[cfg(test)]
mod dials;
#[cfg(test)]
mod eager;
#[cfg(test)]
mod ends;
#[cfg(test)]
mod faults;
#[cfg(test)]
mod fronts;
#[cfg(test)]
mod responses;
#[cfg(test)]
mod sending;
#[cfg(test)]
mod sockets;
#[cfg(test)]
mod waits;
#[cfg(test)]
mod wires;

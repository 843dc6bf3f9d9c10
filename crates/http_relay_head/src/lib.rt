//! Reads the head of a request from a wire.
//!
//! Promised: `read_head` gives a head only where the bytes that it read begin with one, within the limits, that the rules of
//! `http_relay_forward` don't refuse. It gives the head's exact parts, and the bytes after it, none lost. Each fault is returned with
//! its cause. 90, 91 and 95: no more bytes could make a head that is good. 92: the client ended. 93: the wire failed in that call. 92
//! and 93 come only while no head stood there, good or refused, and more bytes might have made one or its target was still coming. At
//! 90, 91, 92 and 95 no good head stands at the front of all that the client sends. Start at `read_head`, whose words are in
//! `specs/Heads.antt`.
#![tactic(auto)]

mod assembling;
mod fault;
mod filling;
mod parts;
mod reading;
mod scanning;

pub use fault::HeadFault;
pub use parts::ReadHead;
pub use reading::read_head;
pub use scanning::HEAD_ROOM;

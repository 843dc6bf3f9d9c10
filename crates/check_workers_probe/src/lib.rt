//! One probe of a server: is it well?
//!
//! Promised: a `Probing` answers yes exactly where its rule is a bare connect, or where the request is sent and what has come begins
//! with a complete response head. The head must have at most 16384 bytes and 100 fields, and its status must be 200 to 399. It
//! answers no only where the wire broke or ended before a whole head was there, or where no more bytes could make it yes. Where a
//! call of the wire would have to wait it answers nothing yet, and goes on later. Start at `Probing::go_on`, whose words are in
//! `specs/Probes.antt`.
#![tactic(auto)]

mod judge;
mod moving;
mod probing;

pub use probing::Probing;

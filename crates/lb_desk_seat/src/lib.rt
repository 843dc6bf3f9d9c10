//! One thread's place at a shared desk: a port for requests and checks, a mover for plans, a steer for an operator's commands.
//!
//! Promised: what a `Seat` states by the contracts of `Port`, `Mover` and `Steer` is what its pass has receipts of. Its entries are
//! those of the pass, in their order, and so are in the desk's one history. It holds the desk for the length of a call and no
//! longer. Start at `Seat`, whose words are in `specs/Seats.antt`.
#![tactic(auto)]

mod mover;
mod port;
mod replies;
mod seat;
mod steer;

pub use seat::Seat;

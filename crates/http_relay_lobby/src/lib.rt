//! The lobby: where clients' connections wait until their heads are there, so that a slow client costs no worker.
//!
//! A listener's thread accepts connections, reads what came with each, and hands it on to the workers with the bytes that were read.
//! One whose head isn't whole becomes a guest: the thread waits for all guests and for the listener at once, and no read of it
//! blocks.
//!
//! Promised: an `Arrival` has the stream that was accepted, the client's address and the listener's frontend, and at most 16,384
//! bytes in front of what the stream still has. Each read of a guest adds exactly the bytes that its stream gave. A `Search` for the
//! end of a head goes on where it ended, and ends as if it had seen all bytes at once. What the system accepts, reports and reads, and
//! when, no clause says; that is tested. Start at `gather_until_stopped`.
#![tactic(auto)]

mod arrival;
mod ceiling;
mod gathering;
mod guest;
mod guests;
mod lanes;
mod line;
mod lobby;
mod refusing;
mod search;

pub use arrival::Arrival;
pub use gathering::gather_until_stopped;
pub use lanes::{Lane, MAX_WAITING, WaitingLine, waiting_line};
pub use lobby::{MOST_GUESTS, Rules};
pub use search::Search;

//! The queue before a server that has as many connections as its `maxconn` allows.
//!
//! Promised: `open_in_queue` asks for a connection to one server. While the answer is that it's full, it asks again after a pause of
//! 50 ms each. It stops when the time for that has run out, by the clock or by the number of pauses. It says how often it asked,
//! which moments it got from the clock and how it paused, and asks neither sooner nor once more. `ask_first` and `ask_again` ask once each
//! and pause nowhere: a caller that has other requests in hand makes the pauses between them. Start at `open_in_queue`, whose words are
//! in `specs/Queues.antt`; those of one question are in `specs/Asks.antt`.
#![tactic(auto)]

mod asking;
mod limit;
mod queue;

pub use asking::{Asking, Queueing, ask_again, ask_first};
pub use limit::PAUSE;
pub use queue::{Waited, open_in_queue};

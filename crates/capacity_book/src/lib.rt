//! How many pins each server of a backend holds, and how many connections are open at it.
//!
//! Promised: a `Book` counts exactly. It refuses a connection exactly where the server doesn't serve (31) or is full
//! (30), and the end of one exactly where none is open (32). A `Book` that was made allocates nothing. Start at `Book`,
//! whose words are in `specs/Book.antt`.
#![tactic(auto)]

mod book;
mod fault;
mod laws;

pub use book::Book;
pub use fault::{CloseFault, OpenFault};
pub use laws::maxconn_alone_is_the_limit;

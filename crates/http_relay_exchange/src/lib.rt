//! One request and its response, over a client's connection and one to a server.
//!
//! Promised: `exchange` sends `100 Continue` to a client that waits for it, then the head that it is given, and then the body. Only
//! then it copies the response, all byte for byte. Each fault says which of these failed and how; what went out by then is a
//! beginning. `send_request` does the first part, for a caller that waits for the response elsewhere. Both allocate nothing. Start at
//! `exchange`, whose words are in `specs/Exchanges.antt`.
#![tactic(auto)]

mod exchanging;
mod fault;
mod heading;
mod request;
mod sending;

pub use exchanging::exchange;
pub use fault::{ExchangeFault, SendFault};
pub use request::Outgoing;
pub use sending::send_request;

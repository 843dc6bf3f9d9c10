//! What a running desk does when an event concerns only its servers: checks, commands, and connections that open and close.
//!
//! Promised: each event is a step, with the reply that is given, of every state that the desk shows. Only the servers
//! change, and the version exactly as the definitions of `lb_desk_model` count it, though no view is ever made. No event
//! allocates. Private to the `lb_desk` crates. Start at `specs/Shown.antt`.
#![tactic(auto)]

mod changes;
mod connections;
mod opening;
mod outcome;
mod replies;

pub use changes::{check, command};
pub use connections::{close_connection, open_connection};
pub use opening::{Opening, open_servers};
pub use outcome::{Outcome, counted};

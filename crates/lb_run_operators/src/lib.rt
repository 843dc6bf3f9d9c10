//! The threads that answer operators, several at a time.
//!
//! Promised: each thread answers under the conditions of `command_socket_serve`: the seat at each place is at the desk of the backend that is
//! configured there, and the name at each place is that backend's. No clause says whose bell a change rings, when a thread ends, or what goes
//! over a connection; that is tested. An operator whose command takes long at the balancer's end keeps nobody else out. Start at
//! `answer_operators`. Private to `lb_run`.
#![tactic(auto)]

mod bells;
mod commands;

pub use commands::{OPERATORS, answer_operators};

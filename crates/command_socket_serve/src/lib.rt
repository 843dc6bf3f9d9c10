//! How a connection to the command socket is answered: one line of operators' commands.
//!
//! Promised: `answer_line` carries out the commands of a line one after another, each with the desks as the commands before it left
//! them. What it asked of each desk and what it printed are those of `specs/Lines.antt`, whatever becomes of the writer. A change is
//! one event at its backend's desk, and its planner is notified if it was made. `serve_connection` does this for the one line of a
//! connection. Start at `answer_line`, and at `specs/Answers.antt`.
#![tactic(auto)]

mod answers;
mod connection;
mod console;
mod line;
mod pins;
mod printing;
mod request;
mod sheets;
mod shows;
mod tasks;
mod told;

pub use connection::serve_connection;
pub use console::{Console, named_backend};
pub use line::{Answered, Next, answer_line};
pub use told::Told;

//! What operators and replays are answered, byte for byte.
//!
//! Promised: `write_answer` writes the text of the answer, which `specs/Answers.antt` says, or else a write failed and a
//! beginning of the text went out. Nothing here allocates, and no answer is held whole. Start at `Answer`.
#![tactic(auto)]

mod answer;
mod events;
mod journals;
mod keys;
mod named_backend;
mod names;
mod replies;
mod scores;
mod tables;

pub use answer::{Answer, write_answer};
pub use events::asked_server;
pub use journals::last_installed;
pub use named_backend::{NamedBackend, NamedTable};

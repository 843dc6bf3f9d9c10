//! What the relay makes of a request's head: whether it is refused, how its body is framed, and what the server gets.
//!
//! Promised: `body_kind` refuses exactly the heads that `specs/Framing.antt` names, of which two readers could see
//! different requests, and says how the body of the others ends. `rewrite` gives exactly the forwarded head of
//! `specs/Forwarded.antt`. An `OwnAnswer` is exactly its text, and allocates nothing. Start at `body_kind`.
#![tactic(auto)]

mod answer;
mod framing;
mod names;
mod options;
mod rewriting;

pub use answer::{OwnAnswer, continue_text};
pub use framing::{BodyKind, HeadRefusal, body_kind, expects_continue};
pub use rewriting::rewrite;

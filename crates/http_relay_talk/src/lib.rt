//! One request at one server, with the connection that it holds there.
//!
//! Promised: `visit` waits for a connection to the server, dials it, lets request and response pass, hangs up, and gives the
//! connection back to the port, whatever failed. A slot is got at most once, and where it was got it is given back. `begin_visit` and `go_on`
//! do the same in steps, each of which says what the visit waits for. All steps of a visit, with anything of other requests between
//! them, come to what `visit` promises of it, and `visit` is made of them. Where the target has a `Lesson`, the pin that the answer's head
//! teaches is set, at most one, before the end of that head goes on to the client. Start at `visit`, whose words are in `specs/Talks.antt`; those
//! of the steps are in `specs/Visits.antt`, and those of lessons in `specs/Lessons.antt`.
#![tactic(auto)]

mod beginning;
mod fault;
mod finishing;
mod going;
mod learning;
mod lesson;
mod opening;
mod target;
mod underway;
mod visiting;

pub use beginning::begin_visit;
pub use fault::{TalkFault, VisitFault};
pub use going::{copy_on, go_on};
pub use learning::{Front, Learning};
pub use lesson::Lesson;
pub use target::{Target, Way};
pub use underway::{Awaits, Held, Step, Underway};
pub use visiting::visit;

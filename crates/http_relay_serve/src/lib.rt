//! One request of a client, from its head to the last byte that the client gets.
//!
//! Promised: `serve_one` reads a head, and asks the backend that takes it for a server, with the request that the configuration makes
//! of the head. It visits that server and no other, and answers the client by itself where there is a `Cause` for that. The outcome
//! has its cause. A slot is got at most once and given back, whatever failed, before an answer of the relay's own goes out. At most one
//! pin is set, which the server's answer teaches; only for that is memory allocated after the dial. A `Routing` gives what the
//! configuration says. `begin` and `go_on` do the same in steps, each of which gives the request back where it waits. All steps of a
//! request, with anything of others between them, come to what `serve_one` promises of it. Start at `serve_one`, whose words are in
//! `specs/Serves.antt`; those of the steps are in `specs/Steps.antt`. Which fault gives which outcome is in `specs/Outcomes.antt`, the
//! answers' bytes are in `specs/Causes.antt`.
#![tactic(auto)]

mod answering;
mod beginning;
mod cause;
mod fault;
mod finding;
mod going;
mod law;
mod outcome;
mod parcel;
mod participants;
mod placing;
mod relaying;
mod routing;
mod serving;
mod underway;

pub use answering::answer;
pub use beginning::begin;
pub use cause::Cause;
pub use fault::{AskFault, BackendFault, ServeFault};
pub use going::go_on;
pub use law::steps_add_up;
pub use outcome::{DropCause, Outcome};
pub use parcel::Parcel;
pub use participants::{Client, Worker};
pub use routing::Routing;
pub use serving::serve_one;
pub use underway::{Queued, Stage, Step, Underway};

ghost use Rattle.std.specs.Prelude.{◌≡◌};
ghost use Rattle.http_relay_serve.specs.Steps.{visit_of};
ghost use Rattle.http_relay_talk.specs.Visits.{awaits};

use crate::{Client, Outcome, Parcel};
use http_relay_queue::{PAUSE, Queueing};
use http_relay_talk::{Awaits, Held, Target};

/// A request that waits for a connection to its server, with all that it takes to send it.
#[derive(Debug, Drop)]
pub struct Queued<'a> {
    pub target: Target<'a>,
    pub request: Parcel,
    pub queueing: Queueing,
}

/// How far a request is at its server.
pub enum Stage<'a, S, W> {
    /// The server is full.
    Queueing(Queued<'a>),
    /// The request was sent, and the server may send more of the response. It needs neither its head nor its server's address any more.
    Copying(Held<'a, S, W>),
}

/// A request that waits. It has no buffer, except for the beginning of a response that may still teach something. No thread has to stay
/// with it. It can't be dropped where it holds a slot: one that goes on to its end gives that back.
pub struct Underway<'a, S, W, C> {
    pub client: Client<C>,
    /// The number of its backend.
    pub backend: usize,
    pub stage: Stage<'a, S, W>,
}

/// What came of a step of a request.
pub enum Step<'a, S, W, C> {
    /// The request waits.
    Waits(Underway<'a, S, W, C>),
    /// The request is over, and its client's connection is given back.
    Done(Client<C>, Outcome),
}

impl<S, W, C> Underway<'_, S, W, C> {
    /// What the request waits for, before `go_on` is worth a call.
    pub fn awaits(&self) -> Awaits
        ensures { result ≡ awaits (visit_of self.now.stage) }
    {
        match &self.stage {
            Stage::Queueing(_) => Awaits::Pause(PAUSE),
            Stage::Copying(_) => Awaits::Readable,
        }
    }
}

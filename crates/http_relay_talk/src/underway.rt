ghost use Rattle.std.specs.Prelude.{◌≡◌};
ghost use Rattle.http_relay_talk.specs.Visits.{awaits, copied};

use crate::{Learning, VisitFault};
use http_relay_queue::{PAUSE, Queueing};

/// What a visit holds whose request was sent: the connection that is open at the server, which is dialled. It can't be dropped. A visit that
/// goes on to its end gives both back.
pub struct Held<'a, S, W> {
    pub slot: S,
    pub connection: W,
    /// How many bytes of the response were copied, at most 2^64 - 1.
    pub copied: u64,
    /// What was learned from the response.
    pub learning: Learning<'a>,
}

/// A visit that waits. It has no buffer, except for the beginning of a response that may still teach something. No thread has to stay
/// with it.
pub enum Underway<'a, S, W> {
    /// The server is full.
    Queueing(Queueing),
    /// The request was sent, and the server may send more of the response.
    Copying(Held<'a, S, W>),
}

/// What a visit waits for.
#[derive(Clone, Copy, Debug, PartialEq, Eq)]
pub enum Awaits {
    /// So many milliseconds.
    Pause(u64),
    /// The connection to the server, until it can be read.
    Readable,
}

impl<S, W> Underway<'_, S, W> {
    /// What the visit waits for, before `go_on` is worth a call.
    pub fn awaits(&self) -> Awaits
        ensures { result ≡ awaits self.now }
    {
        match self {
            Underway::Queueing(_) => Awaits::Pause(PAUSE),
            Underway::Copying(_) => Awaits::Readable,
        }
    }

    /// How many bytes of the response were copied, at most 2^64 - 1.
    pub fn copied(&self) -> u64
        ensures { result ≡ copied self.now }
    {
        match self {
            Underway::Queueing(_) => 0,
            Underway::Copying(held) => held.copied,
        }
    }
}

/// What came of a step of a visit.
pub enum Step<'a, S, W> {
    /// The visit waits.
    Waits(Underway<'a, S, W>),
    /// The visit is over. The answer is how many bytes the server sent, at most 2^64 - 1, or why that was not all.
    Done(Result<u64, VisitFault>),
}

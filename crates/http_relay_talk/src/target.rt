ghost use Rattle.std.specs.Prelude.{◌≡◌};
ghost use Rattle.http_relay_talk.specs.Targets.{target_by};

use crate::Lesson;
use http_relay_dial::{Endpoint, Limits};
use lb_types::ServerId;

/// How a server is reached.
#[derive(Clone, Copy, Debug, PartialEq, Eq)]
pub struct Way {
    pub server: ServerId,
    pub endpoint: Endpoint,
    pub limits: Limits,
    /// How many milliseconds a request waits for a connection; without a number for 2^62 pauses of the queue.
    pub queue: Option<u32>,
}

/// The server of a request.
#[derive(Debug, Drop)]
pub struct Target<'a> {
    pub server: ServerId,
    pub endpoint: Endpoint,
    pub limits: Limits,
    /// How long a request waits for a connection, as in `Way`.
    pub queue: Option<u32>,
    /// What the server's answer may teach, if anything.
    pub lesson: Option<Lesson<'a>>,
}

impl<'a> Target<'a> {
    /// The server that is reached in this way, whose answer may teach this.
    pub fn new(way: Way, lesson: Option<Lesson<'a>>) -> Self
        ensures { result ≡ target_by lesson.entry way }
    {
        Target {
            server: way.server,
            endpoint: way.endpoint,
            limits: way.limits,
            queue: way.queue,
            lesson,
        }
    }
}

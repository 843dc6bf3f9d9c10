ghost use Rattle.std.specs.Prelude.{◌≡◌};
ghost use Rattle.std.specs.Duration.{as_nanos};
ghost use Rattle.http_relay_socket.specs.Limits.{limit_nanos};
ghost use Rattle.std.specs.Option.{option_map};

use std::io;
use std::net::OpenStream;
use std::time::Duration;

/// How many milliseconds each call of a stream may wait for its peer. Without a number, and at 0, there is no limit.
#[derive(Clone, Copy, Debug, PartialEq, Eq, Hash)]
pub struct StreamLimits {
    pub read: Option<u32>,
    pub write: Option<u32>,
}

impl StreamLimits {
    /// Sets both limits, which costs two system calls. What a listener's stream has, those that it accepts have too. The error is the
    /// system's.
    pub fn set<S: OpenStream>(self, stream: &S) -> io::Result<()> {
        stream.set_read_timeout(limit(self.read))?;
        stream.set_write_timeout(limit(self.write))
    }
}

/// The limit as the system takes it, to which 0 would be none either.
#[tactic(auto, unfolding(crate::specs::Limits::limit_nanos))]
fn limit(millis: Option<u32>) -> Option<Duration>
    ensures { option_map as_nanos result ≡ limit_nanos millis }
{
    match millis {
        Some(millis) if millis > 0 => Some(Duration::from_millis(u64::from(millis))),
        _ => None,
    }
}

ghost use Rattle.std.specs.Prelude.{◌≡◌};
ghost use Rattle.lb_config_values.specs.Values.{no_timeouts, with_timeout};

use lb_config_lines::Timeout;

/// The times that were said, in milliseconds.
#[derive(Clone, Copy, Debug, PartialEq, Eq)]
pub struct Timeouts {
    /// `timeout client`.
    pub client: Option<u32>,
    /// `timeout connect`.
    pub connect: Option<u32>,
    /// `timeout server`.
    pub server: Option<u32>,
    /// `timeout queue`.
    pub queue: Option<u32>,
    /// `timeout check`.
    pub check: Option<u32>,
}

impl Timeouts {
    /// None was said.
    pub(crate) fn none() -> Self
        ensures { result ≡ no_timeouts }
    {
        Timeouts {
            client: None,
            connect: None,
            server: None,
            queue: None,
            check: None,
        }
    }

    /// These times, with one more said after them.
    pub(crate) fn with(self, which: Timeout, millis: u32) -> Self
        ensures { result ≡ with_timeout self which millis }
    {
        let mut times = self;
        match which {
            Timeout::Client => times.client = Some(millis),
            Timeout::Connect => times.connect = Some(millis),
            Timeout::Server => times.server = Some(millis),
            Timeout::Queue => times.queue = Some(millis),
            Timeout::Check => times.check = Some(millis),
        }
        times
    }
}

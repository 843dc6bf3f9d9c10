use lb_desk_ports::{Filed, Refused};
use lb_types::{Moment, ServerId};

/// A check that was made.
#[derive(Clone, Copy, Debug, PartialEq, Eq)]
pub struct CheckMade {
    pub server: ServerId,
    /// Whether the server is well.
    pub ok: bool,
    /// What became of the result at the backend.
    pub filed: Result<Filed, Refused>,
}

/// How a round began.
#[derive(Clone, Copy, Debug, PartialEq, Eq)]
pub enum Beginning {
    /// A probe of this server was begun: of those that aren't being probed its check was due first.
    Begun(ServerId),
    /// None of their checks is due for so many milliseconds, at least 1.
    NotDue(u64),
    /// Each server is being probed, or there is no check.
    NoneFree,
}

/// A round, and the moment at which it began.
#[derive(Clone, Copy, Debug, PartialEq, Eq)]
pub struct Round {
    pub begun: Moment,
    pub beginning: Beginning,
    /// The check whose probe has ended, if one has.
    pub made: Option<CheckMade>,
}

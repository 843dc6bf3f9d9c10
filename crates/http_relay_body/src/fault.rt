ghost use Rattle.std.specs.Prelude.{◌≡◌};
ghost use Rattle.http_relay_body.specs.Moves.{fault_number};

use http_relay_wire::WireFault;
use thiserror::Error;

/// Why a request's body was not sent to its end.
#[derive(Clone, Copy, Debug, PartialEq, Eq, Error)]
pub enum BodyFault {
    /// 92: the client ended inside the body.
    #[error("the body was cut short")]
    Truncated,
    /// 93: a read from the client failed.
    #[error("the client's wire failed in the body")]
    Client(WireFault),
    /// 93: a write to the server failed.
    #[error("the server's wire failed in the body")]
    Server(WireFault),
    /// 94: no more bytes can make it a chunked body within the limits.
    #[error("a chunk is bad")]
    BadChunk,
}

impl BodyFault {
    /// The number of the fault.
    pub fn number(self) -> u16
        ensures { result ≡ fault_number self }
    {
        match self {
            BodyFault::Truncated => 92,
            BodyFault::Client(_) | BodyFault::Server(_) => 93,
            BodyFault::BadChunk => 94,
        }
    }
}

ghost use Rattle.std.specs.Prelude.{◌≡◌};
ghost use Rattle.capacity_book.specs.FaultNumbers.{open_number, close_number};

use thiserror::Error;

/// Why a connection isn't opened. If several of these hold, the first is returned.
#[derive(Clone, Copy, Debug, PartialEq, Eq, Hash, Error)]
pub enum OpenFault {
    /// The server doesn't exist, in the farm or in the book, is in maintenance, or is down.
    #[error("the server does not serve")]
    NotServing,
    /// As many connections are open as `maxconn` allows, or as can be counted.
    #[error("the server has as many connections as it may have")]
    Full,
}

/// Why a connection's end isn't counted.
#[derive(Clone, Copy, Debug, PartialEq, Eq, Hash, Error)]
pub enum CloseFault {
    /// No connection is open at the server.
    #[error("no connection is open at the server")]
    NotOpen,
}

impl OpenFault {
    /// The number of the fault in answers to operators.
    pub fn number(self) -> u16
        ensures { result ≡ open_number self }
    {
        match self {
            OpenFault::Full => 30,
            OpenFault::NotServing => 31,
        }
    }
}

impl CloseFault {
    /// The number of the fault in answers to operators.
    pub fn number(self) -> u16
        ensures { result ≡ close_number self }
    {
        match self {
            CloseFault::NotOpen => 32,
        }
    }
}

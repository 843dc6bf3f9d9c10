ghost use Rattle.std.specs.Prelude.{◌≡◌};
ghost use Rattle.server_state.specs.FaultNumbers.{number_of};

use crate::AdminState;
use lb_types::ServerId;
use thiserror::Error;

/// What an operator's command sets.
#[derive(Clone, Copy, Debug, PartialEq, Eq, Hash)]
pub enum Setting {
    /// The admin state. Leaving `Maint` warms a checked server again.
    Admin(AdminState),
    /// The health of a checked server: up or down.
    Health(bool),
    /// The weight, 0 to 256.
    Weight(u64),
    /// `maxconn`, 0 to 4294967295; 0 is no limit.
    MaxConnections(u64),
    /// `maxpins`, 0 to 16777216.
    MaxPins(u64),
}

/// An operator's command for one server.
#[derive(Clone, Copy, Debug, PartialEq, Eq, Hash)]
pub struct Change {
    /// Its number in the backend.
    pub server: ServerId,
    /// What is set of it.
    pub setting: Setting,
}

/// Why a change, or a check's result, was refused. If several of these hold, the first is returned.
#[derive(Clone, Copy, Debug, PartialEq, Eq, Hash, Error)]
pub enum ChangeFault {
    /// The backend has no server of this number.
    #[error("there is no such server")]
    NoSuchServer,
    /// A health or a check's result is for a server that isn't checked.
    #[error("the server is not checked")]
    NotChecked,
    /// The number is beyond its range.
    #[error("the number is out of range")]
    OutOfRange,
}

impl ChangeFault {
    /// The number of the fault in answers to operators.
    pub fn number(self) -> u16
        ensures { result ≡ number_of self }
    {
        match self {
            ChangeFault::NoSuchServer => 10,
            ChangeFault::OutOfRange => 11,
            ChangeFault::NotChecked => 12,
        }
    }
}

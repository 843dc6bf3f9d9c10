ghost use Rattle.std.specs.Prelude.{◌≡◌};

use std::alloc::{AllocError, AllocFailed};
use thiserror::Error;

/// Why a call made no event, or not all of its events.
#[derive(Clone, Copy, Debug, PartialEq, Eq, Hash, Error)]
pub enum Refused {
    /// There is not memory enough.
    #[error("out of memory")]
    Memory,
    /// 81: the backend has had as many events as it can count, connections that are open counted in.
    #[error("worn")]
    Worn,
}

impl Refused {
    ghost use Rattle.lb_desk_ports.specs.Calls.{refused_number};

    /// The number of the refusal in answers to operators, and none when out of memory.
    pub fn number(self) -> Option<u16>
        ensures { result ≡ refused_number self }
    {
        match self {
            Refused::Memory => None,
            Refused::Worn => Some(81),
        }
    }
}

impl From<AllocError> for Refused {
    ghost use Rattle.lb_desk_ports.specs.declared.refused.Refused.TheVariants.{Memory};

    ghost from_gives = { λ _ refused. refused ≡ Memory };

    fn from(_: AllocError) -> Self {
        Refused::Memory
    }
}

impl<T: Drop> From<AllocFailed<T>> for Refused {
    ghost use Rattle.lb_desk_ports.specs.declared.refused.Refused.TheVariants.{Memory};

    ghost from_gives = { λ _ refused. refused ≡ Memory };

    fn from(_: AllocFailed<T>) -> Self {
        Refused::Memory
    }
}

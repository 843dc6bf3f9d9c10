ghost use Rattle.std.specs.Prelude.{◌≡◌};

use http_relay_forward::HeadRefusal;
use http_relay_wire::WireFault;
use std::alloc::{AllocError, AllocFailed};
use thiserror::Error;

/// Why no head was read.
#[derive(Clone, Copy, Debug, PartialEq, Eq, Error)]
pub enum HeadFault {
    /// 90: the head has more than 16384 bytes, empty lines before it included, or more than 100 fields.
    #[error("the head is too large")]
    HeadTooLarge,
    /// 91: the bytes are no head, or one that no server may see.
    #[error("the head is bad")]
    BadHead,
    /// 92: the client ended before the end of the head.
    #[error("the head was cut short")]
    Truncated,
    /// 93: the wire failed.
    #[error("the wire failed in the head")]
    Wire(WireFault),
    /// 95: the head gives the length of its body in two ways.
    #[error("the length of the body is told in two ways")]
    BothLengths,
    /// Out of memory.
    #[error("out of memory")]
    Memory,
}

impl HeadFault {
    ghost use Rattle.http_relay_head.specs.Heads.{fault_number};

    /// The number of the fault, and none for out of memory.
    pub fn number(self) -> Option<u16>
        ensures { result ≡ fault_number self }
    {
        match self {
            HeadFault::HeadTooLarge => Some(90),
            HeadFault::BadHead => Some(91),
            HeadFault::Truncated => Some(92),
            HeadFault::Wire(_) => Some(93),
            HeadFault::BothLengths => Some(95),
            HeadFault::Memory => None,
        }
    }
}

impl From<AllocError> for HeadFault {
    ghost use Rattle.http_relay_head.specs.declared.fault.HeadFault.TheVariants.{Memory};

    ghost from_gives = { λ _ fault. fault ≡ Memory };

    fn from(_: AllocError) -> Self {
        HeadFault::Memory
    }
}

impl<T: Drop> From<AllocFailed<T>> for HeadFault {
    ghost use Rattle.http_relay_head.specs.declared.fault.HeadFault.TheVariants.{Memory};

    ghost from_gives = { λ _ fault. fault ≡ Memory };

    fn from(_: AllocFailed<T>) -> Self {
        HeadFault::Memory
    }
}

impl From<HeadRefusal> for HeadFault {
    ghost use Rattle.http_relay_head.specs.Heads.{told_refusal};

    ghost from_gives = { λ refusal fault. fault ≡ told_refusal refusal };

    fn from(refusal: HeadRefusal) -> Self {
        match refusal {
            HeadRefusal::BadHead => HeadFault::BadHead,
            HeadRefusal::BothLengths => HeadFault::BothLengths,
        }
    }
}

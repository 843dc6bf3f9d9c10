use std::alloc::AllocFailed;
use thiserror::Error;

/// Why a line may not follow the lines before it.
#[derive(Clone, Copy, Debug, PartialEq, Eq, Error)]
pub enum LimitFault {
    /// 26: another frontend, backend, or server of the section has the name. A `listen` section counts as both.
    #[error("the name is declared twice")]
    Duplicate,
    /// 28: a 129th server of a section, a 65th backend, a 257th `acl` line, or a 257th rule of a section.
    #[error("there are too many")]
    TooMany,
    /// 29: a second `stick on` in a section.
    #[error("a section has at most one `stick on`")]
    SecondStick,
}

/// Why a line was not taken.
#[derive(Clone, Copy, Debug, PartialEq, Eq, Error)]
pub enum LimitError {
    /// There is not memory enough.
    #[error("out of memory")]
    Memory,
    /// The line has this fault.
    #[error("{0}")]
    Fault(LimitFault),
}

impl From<LimitFault> for LimitError {
    ghost use Rattle.std.specs.Prelude.{◌≡◌};
    ghost use Rattle.lb_config_limits.specs.declared.fault.LimitError.TheVariants.{Fault};

    ghost from_gives = { λ fault e. e ≡ Fault fault };

    fn from(fault: LimitFault) -> Self {
        LimitError::Fault(fault)
    }
}

impl<T: Drop> From<AllocFailed<T>> for LimitError {
    ghost use Rattle.std.specs.Prelude.{◌≡◌};
    ghost use Rattle.lb_config_limits.specs.declared.fault.LimitError.TheVariants.{Memory};

    ghost from_gives = { λ _ e. e ≡ Memory };

    fn from(_error: AllocFailed<T>) -> Self {
        LimitError::Memory
    }
}

ghost use Rattle.std.specs.Prelude.{◌≡◌, IfOk};
ghost use Rattle.std.specs.String.{string_bytes};

use std::alloc::{AllocError, AllocFailed, Global};
use thiserror::Error;

/// Why a text is no plan, or no sheet. Of several faults the first one in the text is returned, and in one line
/// `BadLine` before `TooLarge` before `NotCanonical`.
#[derive(Clone, Copy, Debug, PartialEq, Eq, Error)]
pub enum TextFault {
    /// The line of this number, counted from 1, is not of the form due there.
    #[error("line {0} is not of the form due there")]
    BadLine(u64),
    /// A number is beyond its range, there are more than 128 servers, or more than 16777216 pins.
    #[error("a number is beyond its range")]
    TooLarge,
    /// Servers of a set, or rows or groups, are not in strictly rising order, or the text is of version 2 without need.
    #[error("the text is not in its one order and form")]
    NotCanonical,
    /// The text ends before the line end of `end`.
    #[error("the text ends too early")]
    Truncated,
}

/// Why a text was not read.
#[derive(Clone, Copy, Debug, PartialEq, Eq, Error)]
pub enum ReadError {
    /// There is not memory enough.
    #[error("out of memory")]
    Memory,
    /// The text has this fault.
    #[error("{0}")]
    Fault(TextFault),
}

impl From<TextFault> for ReadError {
    ghost use Rattle.std.specs.Prelude.{◌≡◌};
    ghost use Rattle.dual_cert_text.specs.declared.fault.ReadError.TheVariants.{Fault};

    ghost from_gives = { λ fault e. e ≡ Fault fault };

    fn from(fault: TextFault) -> Self {
        ReadError::Fault(fault)
    }
}

impl From<AllocError> for ReadError {
    ghost use Rattle.std.specs.Prelude.{◌≡◌};
    ghost use Rattle.dual_cert_text.specs.declared.fault.ReadError.TheVariants.{Memory};

    ghost from_gives = { λ _ e. e ≡ Memory };

    fn from(_error: AllocError) -> Self {
        ReadError::Memory
    }
}

impl<T: Drop> From<AllocFailed<T>> for ReadError {
    ghost use Rattle.std.specs.Prelude.{◌≡◌};
    ghost use Rattle.dual_cert_text.specs.declared.fault.ReadError.TheVariants.{Memory};

    ghost from_gives = { λ _ e. e ≡ Memory };

    fn from(_error: AllocFailed<T>) -> Self {
        ReadError::Memory
    }
}

impl TextFault {
    ghost use Rattle.dual_cert_text.specs.Faults.{fault_text};

    /// The fault as it is printed: `40 BadLine 5`, `41 TooLarge`, `42 NotCanonical` or `43 Truncated`.
    pub fn text(self, alloc: Global) -> Result<String, AllocError>
        ensures { IfOk result (λ text. string_bytes text ≡ fault_text self) }
    {
        match self {
            TextFault::BadLine(line) => format!(in alloc; "40 BadLine {line}"),
            TextFault::TooLarge => String::from_str(alloc, "41 TooLarge"),
            TextFault::NotCanonical => String::from_str(alloc, "42 NotCanonical"),
            TextFault::Truncated => String::from_str(alloc, "43 Truncated"),
        }
    }
}

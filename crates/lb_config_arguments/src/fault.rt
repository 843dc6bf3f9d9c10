use lb_config_words::Word;
use std::alloc::{AllocError, AllocFailed};
use thiserror::Error;

/// Why a line is refused. Of several faults in a line the first from the left is reported.
#[derive(Debug, Drop)]
pub enum Fault {
    /// 21: before any section stands a word that begins none.
    UnknownSection,
    /// 22: the word is none that may stand there, or it is one too many.
    UnknownWord,
    /// 23: a word, a port or a quote's end is missing.
    Missing,
    /// 24: the word is no number, or its number is out of range.
    BadNumber,
    /// 25: the word is no name.
    BadName,
    /// 28: a line has more than 64 words.
    TooMany,
    /// 29: the word, or the character, is one that this balancer leaves out.
    LeftOut(Word),
}

/// Why a line was not read.
#[derive(Debug, Drop, Error)]
pub enum LineError {
    /// There is not memory enough.
    #[error("out of memory")]
    Memory,
    /// The line has this fault.
    #[error("the line has a fault")]
    Fault(Fault),
}

impl From<Fault> for LineError {
    ghost use Rattle.std.specs.Prelude.{◌≡◌};
    ghost use Rattle.lb_config_arguments.specs.declared.fault.LineError.TheVariants.{Fault};

    ghost from_gives = { λ fault e. e ≡ Fault fault };

    fn from(fault: Fault) -> Self {
        LineError::Fault(fault)
    }
}

impl From<AllocError> for LineError {
    ghost use Rattle.std.specs.Prelude.{◌≡◌};
    ghost use Rattle.lb_config_arguments.specs.declared.fault.LineError.TheVariants.{Memory};

    ghost from_gives = { λ _ e. e ≡ Memory };

    fn from(_error: AllocError) -> Self {
        LineError::Memory
    }
}

impl<T: Drop> From<AllocFailed<T>> for LineError {
    ghost use Rattle.std.specs.Prelude.{◌≡◌};
    ghost use Rattle.lb_config_arguments.specs.declared.fault.LineError.TheVariants.{Memory};

    ghost from_gives = { λ _ e. e ≡ Memory };

    fn from(_error: AllocFailed<T>) -> Self {
        LineError::Memory
    }
}

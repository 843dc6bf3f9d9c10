ghost use Rattle.std.specs.Prelude.{◌≡◌, IfOk};
ghost use Rattle.lb_config_sections.specs.Causes.{line_cause, limit_cause};

use lb_config_arguments::Fault;
use lb_config_limits::LimitFault;
use lb_config_words::Word;
use std::alloc::{AllocError, AllocFailed, Global};
use thiserror::Error;

/// What is wrong with a line of a configuration, or with its text.
#[derive(Debug, Drop)]
pub enum Cause {
    /// 20: the text is not UTF-8.
    NotUtf8,
    /// 21: before any section stands a word that begins none.
    UnknownSection,
    /// 22: the word is none that may stand there, or it is one too many.
    UnknownWord,
    /// 23: a word, a port, a quote's end or a table is missing.
    Missing,
    /// 24: the word is no number, or its number is out of range.
    BadNumber,
    /// 25: the word is no name.
    BadName,
    /// 26: the name is declared already.
    Duplicate,
    /// 27: no backend, server or ACL has the name.
    NoSuchName,
    /// 28: there are too many words, servers, backends, ACLs or rules, or the text is too long.
    TooMany,
    /// 29: the word, or the character, is one that this balancer leaves out.
    LeftOut(Word),
}

impl Cause {
    ghost use Rattle.lb_config_sections.specs.Causes.{number_of};

    /// The number of the fault, as it is printed.
    pub fn number(&self) -> u16
        ensures { result ≡ number_of self.now }
    {
        match self {
            Cause::NotUtf8 => 20,
            Cause::UnknownSection => 21,
            Cause::UnknownWord => 22,
            Cause::Missing => 23,
            Cause::BadNumber => 24,
            Cause::BadName => 25,
            Cause::Duplicate => 26,
            Cause::NoSuchName => 27,
            Cause::TooMany => 28,
            Cause::LeftOut(_) => 29,
        }
    }
}

/// The first fault of a configuration.
#[derive(Debug, Drop)]
pub struct LocatedFault {
    /// The number of its line, counted from 1.
    pub line: u32,
    /// What is wrong there.
    pub cause: Cause,
}

/// Why a configuration was not read.
#[derive(Debug, Drop, Error)]
pub enum ConfigFault {
    /// There is not memory enough.
    #[error("out of memory")]
    Memory,
    /// The configuration has this fault.
    #[error("the configuration has a fault")]
    Fault(LocatedFault),
}

impl From<AllocError> for ConfigFault {
    ghost use Rattle.std.specs.Prelude.{◌≡◌};
    ghost use Rattle.lb_config_sections.specs.declared.cause.ConfigFault.TheVariants.{Memory};

    ghost from_gives = { λ _ e. e ≡ Memory };

    fn from(_error: AllocError) -> Self {
        ConfigFault::Memory
    }
}

impl<T: Drop> From<AllocFailed<T>> for ConfigFault {
    ghost use Rattle.std.specs.Prelude.{◌≡◌};
    ghost use Rattle.lb_config_sections.specs.declared.cause.ConfigFault.TheVariants.{Memory};

    ghost from_gives = { λ _ e. e ≡ Memory };

    fn from(_error: AllocFailed<T>) -> Self {
        ConfigFault::Memory
    }
}

/// The cause that a line's own fault is.
pub(crate) fn line_cause(fault: Fault) -> Cause
    ensures { result ≡ line_cause fault }
{
    match fault {
        Fault::UnknownSection => Cause::UnknownSection,
        Fault::UnknownWord => Cause::UnknownWord,
        Fault::Missing => Cause::Missing,
        Fault::BadNumber => Cause::BadNumber,
        Fault::BadName => Cause::BadName,
        Fault::TooMany => Cause::TooMany,
        Fault::LeftOut(word) => Cause::LeftOut(word),
    }
}

/// The cause of a line that may not follow the lines before it.
pub(crate) fn limit_cause(alloc: Global, fault: LimitFault) -> Result<Cause, AllocError>
    ensures { IfOk result (λ cause. cause ≡ limit_cause fault) }
{
    match fault {
        LimitFault::Duplicate => Ok(Cause::Duplicate),
        LimitFault::TooMany => Ok(Cause::TooMany),
        LimitFault::SecondStick => {
            let word = Vec::from_slice(alloc, b"stick")?;
            Ok(Cause::LeftOut(Word::new(word)))
        }
    }
}

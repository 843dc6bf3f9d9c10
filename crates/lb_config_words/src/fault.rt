use std::alloc::{AllocError, AllocFailed};
use thiserror::Error;

/// Why the spelling of a line breaks off. The fault comes after the words before it.
#[derive(Clone, Copy, Debug, PartialEq, Eq, Error)]
pub enum SpellingFault {
    /// A quote is not closed in its line. It is reported at the quote that opens.
    #[error("a quote is not closed")]
    UnclosedQuote,
    /// A backslash stands at the line's end, or before a character that none may stand before.
    #[error("a backslash stands before a character that needs none")]
    RefusedBackslash,
    /// A `$` is in double quotes without a backslash: environment variables are not read.
    #[error("environment variables are not read")]
    RefusedDollar,
    /// A 65th word begins.
    #[error("a line has at most 64 words")]
    TooManyWords,
}

/// Why a text has no lines to read.
#[derive(Clone, Copy, Debug, PartialEq, Eq, Error)]
pub enum TextFault {
    /// The text has more than 1048576 bytes.
    #[error("the text has more than 1048576 bytes")]
    TooLong,
    /// The text is not UTF-8; the first bad byte is in the line of this number, counted from 1.
    #[error("line {0} is not UTF-8")]
    NotUtf8(u32),
}

/// Why a text was not read.
#[derive(Clone, Copy, Debug, PartialEq, Eq, Error)]
pub enum WordsFault {
    /// There is not memory enough.
    #[error("out of memory")]
    Memory,
    /// The text as a whole has this fault.
    #[error("{0}")]
    Text(TextFault),
}

impl From<AllocError> for WordsFault {
    ghost use Rattle.std.specs.Prelude.{◌≡◌};
    ghost use Rattle.lb_config_words.specs.declared.fault.WordsFault.TheVariants.{Memory};

    ghost from_gives = { λ _ e. e ≡ Memory };

    fn from(_error: AllocError) -> Self {
        WordsFault::Memory
    }
}

use thiserror::Error;

/// Why a command was not taken. Of the first three the one that comes first in the command is reported, and a missing
/// word counts as at its end; reading gives no other. The last two are reported for commands that were read, in this
/// order.
#[derive(Clone, Copy, Debug, PartialEq, Eq, Hash, Error)]
pub enum CommandFault {
    /// A word isn't one that is due there, there is a word too many, or the line is longer than 4096 bytes.
    #[error("the command has a word that is not due there")]
    UnknownCommand,
    /// The command ends where another word is due.
    #[error("the command ends where another word is due")]
    MissingWord,
    /// Where a number is due stands a word that is no decimal number below 2^64.
    #[error("a number is not decimal digits below 2^64")]
    BadNumber,
    /// There is no backend of that name.
    #[error("there is no such backend")]
    NoBackend,
    /// The backend has no server of that name.
    #[error("there is no such server")]
    NoSuchServer,
}

impl CommandFault {
    ghost use Rattle.std.specs.Prelude.{◌≡◌};
    ghost use Rattle.command_socket_words.specs.Faults.{number_of, fault_text};

    /// The number of the fault in answers to operators.
    pub fn number(self) -> u16
        ensures { result ≡ number_of self }
    {
        match self {
            CommandFault::UnknownCommand => 100,
            CommandFault::MissingWord => 101,
            CommandFault::BadNumber => 102,
            CommandFault::NoBackend => 103,
            CommandFault::NoSuchServer => 10,
        }
    }

    /// The fault as it is printed, as in `100 UnknownCommand`.
    pub fn text(self) -> &'static str
        ensures { result.now ≡ fault_text self }
    {
        match self {
            CommandFault::UnknownCommand => "100 UnknownCommand",
            CommandFault::MissingWord => "101 MissingWord",
            CommandFault::BadNumber => "102 BadNumber",
            CommandFault::NoBackend => "103 NoBackend",
            CommandFault::NoSuchServer => "10 NoSuchServer",
        }
    }
}

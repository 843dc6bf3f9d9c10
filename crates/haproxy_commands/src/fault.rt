use std::alloc::AllocError;
use thiserror::Error;

/// Why there are no commands.
#[derive(Clone, Copy, Debug, PartialEq, Eq, Error)]
pub enum CommandsFault {
    /// The table's name is empty, or has a byte that no name has.
    #[error("the table's name isn't made of letters, digits, `-`, `_`, `.` and `:`")]
    BadTable,
    /// The key of the move at this place, counted from 0, can't be named in a command: it is empty, or has a byte 0, 10 or 13.
    #[error("the key of the move at place {0} can't be named in a command")]
    BadKey(usize),
    /// There is not memory enough.
    #[error("out of memory")]
    OutOfMemory,
}

impl From<AllocError> for CommandsFault {
    ghost use Rattle.std.specs.Prelude.{◌≡◌};
    ghost use Rattle.haproxy_commands.specs.declared.fault.CommandsFault.TheVariants.{OutOfMemory};

    ghost from_gives = { λ _ fault. fault ≡ OutOfMemory };

    fn from(_: AllocError) -> Self {
        CommandsFault::OutOfMemory
    }
}

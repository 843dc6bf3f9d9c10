ghost use Rattle.std.specs.Prelude.{◌≡◌};
ghost use Rattle.clap.specs.Words.{kind_of};
ghost use Rattle.lb_cli_words.specs.ExitStatus.{exit_status_of};

use crate::{Error, ErrorKind};

/// The status to exit with after `read_words` gave this error: 0 for help, 1 when out of memory, and 2 for wrong words.
pub fn exit_status(error: &Error) -> u8
    ensures { result ≡ exit_status_of (kind_of error.now) }
{
    match error.kind() {
        ErrorKind::DisplayHelp => 0,
        ErrorKind::OutOfMemory => 1,
        _ => 2,
    }
}

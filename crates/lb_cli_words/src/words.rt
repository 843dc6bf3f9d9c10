ghost use Rattle.std.specs.Prelude.{◌≡◌, ◌≢◌, ◌⊎◌, ◌∷◌, [], Some, IsSome, IsTrue, IfOk, IfErr};
ghost use Rattle.clap.specs.Words.{fault_of, kind_of};
ghost use Rattle.lb_cli_words.specs.Words.{texts};
ghost use Rattle.lb_cli_words.specs.Table.{row_in, row_of, asks_help};
ghost use Rattle.lb_cli_words.specs.Clap.{commands_app};

use crate::commands::commands;
use crate::table::{asks_help, job_of};
use crate::{Error, ErrorKind, Job};
use std::alloc::{AllocError, Global};

/// The job that the words ask for. The first word is the program's name, as in `std::env::args`.
///
/// A request for help is an error of the kind `DisplayHelp`. The error's `Display` is the text for the user, and
/// `exit_status` says what the program is to exit with.
pub fn read_words<'a>(alloc: Global, words: &'a [&'a str]) -> Result<Job<'a>, Error>
    ensures ok { IfOk result (λ job. row_in (texts words.now) ≡ Some (row_of job)) }
    ensures only_memory { IfErr result (λ e. IsSome (row_in (texts words.now))
        → kind_of e ≡ ErrorKind.OutOfMemory) }
    ensures help { IfErr result (λ e. kind_of e ≡ ErrorKind.DisplayHelp
        → IsTrue (asks_help (texts words.now))) }
    ensures help_asked { IfErr result (λ e. IsTrue (asks_help (texts words.now))
        → (kind_of e ≡ ErrorKind.DisplayHelp) ⊎ (kind_of e ≡ ErrorKind.OutOfMemory)) }
{
    match job_of(words) {
        Some(job) => Ok(job),
        None if asks_help(words) => Err(help(alloc, words)?),
        None => Err(mistake(alloc, words)?),
    }
}

/// The help on the command that the words name, or on the program.
fn help(alloc: Global, words: &[&str]) -> Result<Error, AllocError>
    ensures { IfOk result (λ e. (kind_of e ≡ ErrorKind.DisplayHelp) ⊎ (kind_of e ≡ ErrorKind.OutOfMemory)) }
{
    match commands(alloc)?.try_get_matches_from(plain_request(words)) {
        Err(error) => Ok(error),
        Ok(_) => unreachable!(),
    }
}

/// Words that ask for the same help and for nothing else.
fn plain_request(words: &[&str]) -> &'static [&'static str]
    ensures { fault_of commands_app (texts result.now) ≡ ErrorKind.DisplayHelp ∷ [] }
{
    match words {
        [_, "verify", ..] => &["stickylb", "verify", "--help"],
        [_, "plan", ..] => &["stickylb", "plan", "--help"],
        [_, "format", ..] => &["stickylb", "format", "--help"],
        [_, "sheet", ..] => &["stickylb", "sheet", "--help"],
        [_, "commands", ..] => &["stickylb", "commands", "--help"],
        [_, "replay", ..] => &["stickylb", "replay", "--help"],
        [_, "check", ..] => &["stickylb", "check", "--help"],
        [_, "run", ..] => &["stickylb", "run", "--help"],
        _ => &["stickylb", "--help"],
    }
}

/// What is wrong with words that are no row of the table and don't ask for help.
fn mistake<'a>(alloc: Global, words: &'a [&'a str]) -> Result<Error, AllocError>
    ensures { IfOk result (λ e. kind_of e ≢ ErrorKind.DisplayHelp) }
{
    match found_wrong(alloc, words)? {
        Some(error) if error.kind() != ErrorKind::DisplayHelp => Ok(error),
        _ => conflict(alloc),
    }
}

/// What `clap` finds wrong with the words, if anything.
fn found_wrong<'a>(alloc: Global, words: &'a [&'a str]) -> Result<Option<Error>, AllocError> {
    Ok(commands(alloc)?.try_get_matches_from(words).err())
}

/// What is wrong with words that `clap` takes, or takes for a request for help: to it an option of the program may stand before a command.
fn conflict(alloc: Global) -> Result<Error, AllocError>
    ensures { IfOk result (λ e. kind_of e ≢ ErrorKind.DisplayHelp) }
{
    commands(alloc)?.error(ErrorKind::ArgumentConflict, "these words don't go together")
}

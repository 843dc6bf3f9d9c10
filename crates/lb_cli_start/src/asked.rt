ghost use Rattle.std.specs.Prelude.{◌≡◌, ◌≢◌, Some, IfOk, IfErr, IsSome, IsTrue};
ghost use Rattle.clap.specs.Words.{kind_of};
ghost use Rattle.lb_cli_words.specs.Words.{texts};
ghost use Rattle.lb_cli_words.specs.Table.{asks_help, row_in, row_of};

use crate::words::out_of_memory;
use lb_cli_words::{Error, ErrorKind, Job, exit_status, read_words};
use std::alloc::AllocGlobal;

/// The job that the words ask for. The first word is the program's name.
///
/// If they ask for none, it prints the help, or what is wrong, each on its stream. The error is then the status to end with.
pub fn asked_job<'a, R: Print + Eprint + AllocGlobal>(
    rt: &R,
    words: &'a [&'a str],
) -> Result<Job<'a>, u8>
    ensures ok { IfOk result (λ job. row_in (texts words.now) ≡ Some (row_of job)) }
    ensures only_memory { IfErr result (λ status. IsSome (row_in (texts words.now)) → status ≡ 1) }
    ensures help { IfErr result (λ status. status ≡ 0 → IsTrue (asks_help (texts words.now))) }
{
    match read_words(rt.alloc(), words) {
        Ok(job) => Ok(job),
        Err(error) => Err(complain(rt, &error)),
    }
}

/// Prints what the words call for: help on standard output, and all else on standard error. The status is that of the error, and for
/// help that can't be printed 1.
fn complain(rt: &(impl Print + Eprint), error: &Error) -> u8
    ensures memory { kind_of error.now ≡ ErrorKind.OutOfMemory → result ≡ 1 }
    ensures help { result ≡ 0 → kind_of error.now ≡ ErrorKind.DisplayHelp }
{
    if error.kind() == ErrorKind::OutOfMemory {
        return out_of_memory(rt);
    }
    match error.print(rt) {
        Ok(()) => exit_status(error),
        Err(_) => {
            let _ = eprintln!(rt; "cannot write");
            exit_status(error).max(1)
        }
    }
}

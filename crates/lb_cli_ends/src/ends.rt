ghost use Rattle.std.specs.Prelude.{◌≡◌};
ghost use Rattle.lb_cli_ends.specs.Statuses.{status_of};

use crate::JobError;
use std::io;
use std::io::Write;

/// Writes to `err` what prevented a job with this file, if anything did. Returns the exit status: `status_of` what came of the job.
pub fn end<E: Write>(done: Result<bool, JobError>, file: &str, err: &mut E) -> u8
    ensures { result ≡ status_of done }
{
    if let Err(error) = done {
        // A message that can't be written leaves only the status.
        let _ = tell(err, error, file);
    }
    status_of(done)
}

/// The program's exit status after a job: 0 if its answer is yes, and 1 if that is no or the job was not done.
pub fn status_of(done: Result<bool, JobError>) -> u8
    ensures { result ≡ status_of done }
{
    match done {
        Ok(true) => 0,
        Ok(false) | Err(_) => 1,
    }
}

/// Writes to standard error what prevented a job.
fn tell<E: Write>(err: &mut E, error: JobError, file: &str) -> io::Result<()> {
    match error {
        JobError::CannotRead => writeln!(err, "cannot read {file}"),
        JobError::OutOfMemory => writeln!(err, "out of memory"),
        JobError::CannotWrite => writeln!(err, "cannot write"),
    }
}

ghost use Rattle.std.specs.Prelude.{◌≡◌, ◌≢◌, IfOk, IfErr, IfSome};
ghost use Rattle.lb_cli_ends.specs.declared.job_error.JobError.TheVariants.{CannotRead, CannotWrite};

use crate::JobError;
use std::alloc::Global;
use std::fs;
use std::io::{ErrorKind, Read};
use std::rt::Files;

/// The file, to be read.
pub fn opened<R: Files>(rt: &R, path: &str) -> Result<R::File, JobError>
    ensures { IfErr result (λ error. error ≡ CannotRead) }
{
    match fs::open(rt, path) {
        Ok(file) => Ok(file),
        Err(_) => Err(JobError::CannotRead),
    }
}

/// All bytes that are left to read. More than memory can hold is out of memory; any other failure is a file that can't be read.
pub fn whole<R: Read>(alloc: Global, file: &mut R) -> Result<Vec<u8>, JobError>
    ensures whole { IfOk result (λ text. IfSome (R.remaining file.old) (λ all. text.items ≡ all)) }
    ensures hindered { IfErr result (λ error. error ≢ CannotWrite) }
{
    let mut text = Vec::new(alloc);
    match file.read_to_end(&mut text) {
        Ok(_) => Ok(text),
        Err(error) if error.kind() == ErrorKind::OutOfMemory => Err(JobError::OutOfMemory),
        Err(_) => Err(JobError::CannotRead),
    }
}

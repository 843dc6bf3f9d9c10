use std::alloc::AllocError;
use thiserror::Error;

/// Why a job was not done.
#[derive(Clone, Copy, Debug, PartialEq, Eq, Error)]
pub enum JobError {
    /// The file can't be opened or read.
    #[error("the file can't be read")]
    CannotRead,
    /// There is not memory enough.
    #[error("out of memory")]
    OutOfMemory,
    /// What was found out can't be written.
    #[error("the answer can't be written")]
    CannotWrite,
}

impl From<AllocError> for JobError {
    ghost use Rattle.std.specs.Prelude.{◌≡◌};
    ghost use Rattle.lb_cli_ends.specs.declared.job_error.JobError.TheVariants.{OutOfMemory};

    ghost from_gives = { λ _ e. e ≡ OutOfMemory };

    fn from(_error: AllocError) -> Self {
        JobError::OutOfMemory
    }
}

ghost use Rattle.std.specs.Prelude.{◌≡◌, true, false, IfOk};

use crate::refusal::Refusal;
use std::alloc::{AllocError, Global};

/// What a job writes.
#[derive(Drop)]
pub struct Answer {
    /// Whether it is what the job was asked for. Else it is a line that says why not.
    pub is_good: bool,
    /// The bytes to be written.
    pub text: Vec<u8>,
}

impl Answer {
    /// The line that says why the job has no other answer.
    pub(crate) fn refused(alloc: Global, refusal: Refusal) -> Result<Answer, AllocError>
        ensures { IfOk result (λ answer. answer.is_good ≡ false) }
    {
        let line = refusal.line(alloc)?;
        Ok(Answer {
            is_good: false,
            text: line.into_bytes(),
        })
    }
}

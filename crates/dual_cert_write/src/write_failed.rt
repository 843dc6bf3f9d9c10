use thiserror::Error;

/// A write to the writer failed, so not all of the text went out.
#[derive(Clone, Copy, Debug, PartialEq, Eq, Error)]
#[error("the text can't be written")]
pub struct WriteFailed;

impl WriteFailed {
    ghost use Rattle.std.specs.Prelude.{◌≡◌, codes};

    /// The fault as it is printed: `44 WriteFailed`.
    pub fn text(self) -> &'static str
        ensures { result.now ≡ codes "44 WriteFailed" }
    {
        "44 WriteFailed"
    }
}

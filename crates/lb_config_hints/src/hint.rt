ghost use Rattle.std.specs.Prelude.{◌≡◌, ◌++◌, codes, OnOk};
ghost use Rattle.lb_config_hints.specs.Hints.{hint_words};

use std::alloc::AllocError;

/// What may help with a fault.
#[derive(Clone, Copy, Debug, PartialEq, Eq)]
pub enum Hint<'a> {
    /// These words say what is due, or what to do.
    Says(&'static str),
    /// This word was probably meant.
    Meant(&'a [u8]),
}

impl Hint<'_> {
    /// Appends the hint to the text.
    pub fn push(&self, text: &mut Vec<u8>) -> Result<(), AllocError>
        ensures { OnOk result (text.new.items ≡ text.old.items ++ hint_words self.now) }
    {
        match self {
            Hint::Says(words) => text.extend_from_slice(words.as_bytes()),
            Hint::Meant(word) => push_meant(text, word),
        }
    }
}

/// Appends that the word was probably meant.
fn push_meant(text: &mut Vec<u8>, word: &[u8]) -> Result<(), AllocError>
    ensures { OnOk result (text.new.items ≡ text.old.items ++ codes "did you mean " ++ word.now ++ codes "?") }
{
    text.extend_from_slice(b"did you mean ")?;
    text.extend_from_slice(word)?;
    text.extend_from_slice(b"?")?;
    Ok(())
}

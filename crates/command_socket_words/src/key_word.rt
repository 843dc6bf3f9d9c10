use std::marker::Model;

/// A word where the key of a pin is due. It isn't empty, and has no space and no semicolon.
#[derive(Debug, Drop)]
pub struct KeyWord<'a> {
    bytes: &'a [u8],
}

impl<'a> Model for KeyWord<'a> {
    ghost use Rattle.std.specs.Prelude.{List, ℕ};

    ghost Value = { List ℕ };

    ghost view = { λ word. word.bytes.now };
}

impl<'a> KeyWord<'a> {
    ghost use Rattle.std.specs.Prelude.{◌≡◌};

    pub(crate) fn new(bytes: &'a [u8]) -> Self
        ensures { result ≡ bytes.now }
    {
        KeyWord { bytes }
    }

    /// The same word.
    pub fn copy(&self) -> Self
        ensures { result ≡ self.now }
    {
        KeyWord { bytes: self.bytes }
    }

    /// The bytes of the word.
    pub fn as_bytes(&self) -> &'a [u8]
        ensures { result.now ≡ self.now }
    {
        self.bytes
    }
}

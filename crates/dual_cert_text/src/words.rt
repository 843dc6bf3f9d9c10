ghost use Rattle.std.specs.Prelude.{◌≡◌};
ghost use Rattle.std.specs.Str.{bytes_eq};
ghost use Rattle.dual_cert_text.specs.Words.{keyed, positive_of};

use lb_types_text::numeral;

/// Whether the word is this one.
pub fn is(word: &[u8], wanted: &[u8]) -> bool
    ensures { result ≡ bytes_eq word.now wanted.now }
{
    *word == *wanted
}

/// The number after the word `key`.
#[tactic(auto, unfolding(crate::specs::Words::keyed))]
pub fn read_keyed(key: &[u8], word: &[u8], number: &[u8]) -> Option<u64>
    ensures { result ≡ keyed key.now word.now number.now }
{
    if !is(word, key) {
        return None;
    }
    numeral(number)
}

/// A number of at least 1.
#[tactic(auto, unfolding(crate::specs::Words::positive_of))]
pub fn read_positive(word: &[u8]) -> Option<u64>
    ensures { result ≡ positive_of word.now }
{
    let number = numeral(word)?;
    if number == 0 {
        return None;
    }
    Some(number)
}

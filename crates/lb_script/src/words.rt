ghost use Rattle.std.specs.Prelude.{◌≡◌};
ghost use Rattle.std.specs.Option.{option_copied};
ghost use Rattle.std.specs.Str.{bytes_eq};
ghost use Rattle.lb_script.specs.Words.{at_end, number_in, only_word};

use crate::ScriptLine;
use lb_types_text::{Digits, Parts};

/// Whether the word is this one.
pub(crate) fn is(word: &[u8], wanted: &[u8]) -> bool
    ensures { result ≡ bytes_eq word.now wanted.now }
{
    *word == *wanted
}

/// The number that the word's decimal digits say, if 64 bits can hold it.
pub(crate) fn read_number(word: &[u8]) -> Option<u64>
    ensures { result ≡ number_in word.now }
{
    match Digits::read(word) {
        Digits::Value(number) => Some(number),
        Digits::Misspelt | Digits::TooLarge => None,
    }
}

/// The only word that is left.
pub(crate) fn only_word<'a>(words: &mut Parts<'a>) -> Option<&'a [u8]>
    ensures { option_copied result ≡ only_word words.old }
{
    let word = words.next_part()?;
    if words.next_part().is_some() {
        return None;
    }
    Some(word)
}

/// This, where no word is left.
pub(crate) fn at_end(said: ScriptLine, words: &mut Parts) -> Option<ScriptLine>
    ensures { result ≡ at_end said words.old }
{
    if words.next_part().is_some() {
        return None;
    }
    Some(said)
}

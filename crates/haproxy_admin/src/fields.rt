ghost use Rattle.std.specs.Prelude.{◌≡◌};
ghost use Rattle.std.specs.List.{list_all};
ghost use Rattle.std.specs.Option.{option_copied};
ghost use Rattle.haproxy_admin.specs.Fields.{is_field, number_in, number_of, server_in, value_in, value_of, words_after};

use crate::cuts::cut;
use lb_types_text::{Digits, Parts};

/// The number in decimal digits, if 64 bits hold it.
#[tactic(auto, unfolding(crate::specs::Fields::number_of))]
pub(crate) fn number_of(word: &[u8]) -> Option<u64>
    ensures { result ≡ number_of word.now }
{
    match Digits::read(word) {
        Digits::Value(number) => Some(number),
        Digits::Misspelt | Digits::TooLarge => None,
    }
}

/// Whether each word after the key is of the form NAME=VALUE.
#[tactic(auto, using(crate::proofs::Words::after_blank, crate::proofs::Words::after_nothing, crate::proofs::Words::good_word, crate::proofs::Words::bad_word))]
pub(crate) fn are_fields(rest: &[u8]) -> bool
    ensures { result ≡ list_all is_field (words_after rest.now) }
{
    let Some((_, text)) = rest.split_first() else {
        return true;
    };
    let mut words = Parts::new(text, b' ');
    while let Some(word) = words.next_part() {
        if !is_field(word) {
            return false;
        }
    }
    true
}

#[tactic(auto, unfolding(crate::specs::Fields::is_field))]
fn is_field(word: &[u8]) -> bool
    ensures { result ≡ is_field word.now }
{
    word.contains(&b'=')
}

/// The value of the first word with this name after the key.
#[tactic(auto, using(crate::proofs::Words::after_blank, crate::proofs::Words::after_nothing, crate::proofs::Words::value_here, crate::proofs::Words::value_later, crate::proofs::Words::no_value))]
fn value_of<'a>(name: &[u8], rest: &'a [u8]) -> Option<&'a [u8]>
    ensures { option_copied result ≡ value_of name.now (words_after rest.now) }
{
    let (_, text) = rest.split_first()?;
    let mut words = Parts::new(text, b' ');
    while let Some(word) = words.next_part() {
        if let Some(value) = value_in(name, word) {
            return Some(value);
        }
    }
    None
}

/// The value of the word, if its name is this one.
#[tactic(auto, unfolding(crate::specs::Fields::value_in))]
fn value_in<'a>(name: &[u8], word: &'a [u8]) -> Option<&'a [u8]>
    ensures { option_copied result ≡ value_in name.now word.now }
{
    let (own_name, value) = cut(b'=', word)?;
    if own_name != name {
        return None;
    }
    Some(value)
}

/// The number with this name after the key. The inner option is none where no word has the name, the outer one where the value is no number.
#[tactic(auto, unfolding(crate::specs::Fields::number_in))]
pub(crate) fn number_in(name: &[u8], rest: &[u8]) -> Option<Option<u64>>
    ensures { result ≡ number_in name.now (words_after rest.now) }
{
    let Some(value) = value_of(name, rest) else {
        return Some(None);
    };
    let number = number_of(value)?;
    Some(Some(number))
}

/// The name of the server after the key.
#[tactic(auto, unfolding(crate::specs::Fields::server_in))]
pub(crate) fn server_in(rest: &[u8]) -> Option<&[u8]>
    ensures { option_copied result ≡ server_in (words_after rest.now) }
{
    let name = value_of(b"server_key", rest)?;
    if name == b"-".as_slice() {
        return None;
    }
    Some(name)
}

ghost use Rattle.std.specs.Prelude.{◌≡◌, ◌≤◌, ◌==◌, ◌||◌, length, IfOk, bytes_eq};
ghost use Rattle.std.specs.List.{list_any, list_all};
ghost use Rattle.lb_config_conditions.specs.Calls.{place_of, is_call, call_name, call_argument, has_one_argument, is_call_of, is_token_byte, token_in};
ghost use Rattle.lb_config_arguments.specs.Faults.{Gives};

use lb_acl::Text;
use lb_config_arguments::{Fault, LineError, Words, is};
use std::alloc::AllocError;

/// Whether the word is a call of the one or the other name with one argument.
#[tactic(auto, unfolding(crate::specs::Calls::is_call_of))]
pub(crate) fn is_call_of(name: &[u8], long_name: &[u8], word: &[u8]) -> bool
    ensures { result ≡ is_call_of name.now long_name.now word.now }
{
    is_call(word) && has_one_argument(word) && is_either(call_name(word), name, long_name)
}

fn is_either(word: &[u8], name: &[u8], long_name: &[u8]) -> bool
    ensures { result ≡ (bytes_eq word.now name.now || bytes_eq word.now long_name.now) }
{
    is(word, name) || is(word, long_name)
}

/// The argument of a call as a name of a field or of a cookie.
pub(crate) fn read_token(words: &Words, word: &[u8]) -> Result<Text, LineError>
    ensures { Gives (λ name. name) result (token_in (call_argument word.now)) }
{
    token(words, call_argument(word))
}

#[tactic(auto, unfolding(crate::specs::Calls::token_in))]
fn token(words: &Words, argument: &[u8]) -> Result<Text, LineError>
    ensures { Gives (λ name. name) result (token_in argument.now) }
{
    if argument.is_empty() {
        return Err(Fault::Missing.into());
    }
    if !is_token(argument) {
        return Err(Fault::BadName.into());
    }
    Ok(kept(words, argument)?)
}

/// The text of the bytes, for a condition to keep.
pub(crate) fn kept(words: &Words, bytes: &[u8]) -> Result<Text, AllocError>
    ensures { IfOk result (λ text. text ≡ bytes.now) }
{
    Ok(Text::new(Vec::from_slice(words.alloc(), bytes)?))
}

fn is_token(bytes: &[u8]) -> bool
    ensures { result ≡ list_all is_token_byte bytes.now }
{
    bytes.iter().all(|byte| is_token_byte(*byte))
}

fn is_token_byte(byte: u8) -> bool
    ensures { result ≡ is_token_byte byte }
{
    byte.is_ascii_alphanumeric() || b"!#$%&'*+-.^_`|~".contains(&byte)
}

#[tactic(auto, unfolding(crate::specs::Calls::is_call))]
fn is_call(word: &[u8]) -> bool
    ensures { result ≡ is_call word.now }
{
    place_of(b'(', word) < word.len() && word[word.len() - 1] == b')'
}

#[tactic(auto, unfolding(crate::specs::Calls::call_name))]
fn call_name(word: &[u8]) -> &[u8]
    ensures { result.now ≡ call_name word.now }
{
    let (name, _) = word.split_at(place_of(b'(', word));
    name
}

#[tactic(auto, unfolding(crate::specs::Calls::call_argument))]
fn call_argument(word: &[u8]) -> &[u8]
    ensures { result.now ≡ call_argument word.now }
{
    let at = place_of(b'(', word);
    if at + 2 > word.len() {
        return &[];
    }
    let (_, behind) = word.split_at(at + 1);
    let (argument, _) = behind.split_at(word.len() - at - 2);
    argument
}

#[tactic(auto, unfolding(crate::specs::Calls::has_one_argument))]
fn has_one_argument(word: &[u8]) -> bool
    ensures { result ≡ has_one_argument word.now }
{
    !has_comma(call_argument(word))
}

fn has_comma(bytes: &[u8]) -> bool
    ensures { result ≡ list_any (λ byte. byte == 44) bytes.now }
{
    bytes.iter().any(|byte| *byte == b',')
}

/// The place of the first byte `mark`, or the length.
pub(crate) fn place_of(mark: u8, bytes: &[u8]) -> usize
    ensures exact { result ≡ place_of mark bytes.now }
    ensures within { result ≤ length bytes.now }
{
    for (i, byte) in bytes.iter().enumerate() {
        if *byte == mark {
            return i;
        }
    }
    bytes.len()
}

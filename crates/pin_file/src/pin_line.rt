ghost use Rattle.std.specs.Prelude.{◌≡◌, false, true, None, Some, IfOk, IfSome, IfNone};
ghost use Rattle.std.specs.Str.{bytes_eq};
ghost use Rattle.lb_types.specs.Names.{is_name};
ghost use Rattle.lb_types_text.specs.Parts.{parts};
ghost use Rattle.pin_file.specs.declared.file_pin.FilePin.{FilePin};
ghost use Rattle.pin_file.specs.Files.{IsFilePin};
ghost use Rattle.pin_file.specs.KeyWords.{text_word};
ghost use Rattle.pin_file.specs.Spellings.{pin_line};
ghost use Rattle.pin_file.specs.Texts.{key_of, names_of, wanted_of, server_of, cost_of, age_of, pin_said, pin_in, pin_of, backend_of};

use crate::pushing::push_text_word;
use crate::{FilePin, NameList};
use command_socket_keys::read_key;
use dual_cert_text::words::{is, read_positive};
use lb_types::{MAX_COST, Name};
use lb_types_text::{Parts, numeral};
use pin_set::{KeyText, PinKey};
use std::alloc::{AllocError, Global};

/// The words of a pin's line.
#[derive(Clone, Copy, Debug)]
struct PinWords<'a> {
    key: &'a [u8],
    wanted: &'a [u8],
    server: &'a [u8],
    cost: &'a [u8],
    age: &'a [u8],
}

/// The pin that the line says, without the line's end, or none where it is no pin's line. The only error is out of memory.
pub fn read_pin(alloc: Global, line: &[u8]) -> Result<Option<FilePin>, AllocError>
    // What is read is spelled so.
    ensures found { IfOk result (λ pin. IfSome pin (λ p. IsFilePin p × (line.now ≡ pin_line p))) }
    // What is spelled so is read, unless memory runs out.
    ensures only { (p : FilePin) → IsFilePin p → line.now ≡ pin_line p → IfOk result (λ pin. pin ≡ Some p) }
{
    read_line(alloc, line)
}

#[tactic(auto, unfolding(crate::specs::Texts::pin_in))]
fn read_line(alloc: Global, line: &[u8]) -> Result<Option<FilePin>, AllocError>
    ensures { IfOk result (λ pin. pin ≡ pin_in (parts 32 line.now)) }
{
    let mut words = Parts::new(line, b' ');
    let Some(word) = words.next_part() else {
        return Ok(None);
    };
    if !is(word, b"pin") {
        return Ok(None);
    }
    read_pin_words(alloc, &mut words)
}

/// The pin that the words after `pin` say.
pub(crate) fn read_pin_words(
    alloc: Global,
    words: &mut Parts,
) -> Result<Option<FilePin>, AllocError>
    ensures { IfOk result (λ pin. pin ≡ pin_of words.old) }
{
    match five_words(words) {
        None => Ok(None),
        Some(five) => read_five(alloc, &five),
    }
}

/// The five words, if there are five.
#[tactic(auto, unfolding(crate::specs::Texts::pin_of))]
fn five_words<'a>(words: &mut Parts<'a>) -> Option<PinWords<'a>>
    ensures none { IfNone result (pin_of words.old ≡ None) }
    ensures some { IfSome result (λ five. pin_of words.old
        ≡ pin_said five.key.now five.wanted.now five.server.now five.cost.now five.age.now) }
{
    let key = words.next_part()?;
    let wanted = words.next_part()?;
    let server = words.next_part()?;
    let cost = words.next_part()?;
    let age = words.next_part()?;
    if words.next_part().is_some() {
        return None;
    }
    Some(PinWords {
        key,
        wanted,
        server,
        cost,
        age,
    })
}

#[tactic(auto, unfolding(crate::specs::Texts::pin_said))]
fn read_five(alloc: Global, five: &PinWords<'_>) -> Result<Option<FilePin>, AllocError>
    ensures { IfOk result (λ pin. pin
        ≡ pin_said five.now.key.now five.now.wanted.now five.now.server.now five.now.cost.now five.now.age.now) }
{
    let Some(server) = read_server(five.server) else {
        return Ok(None);
    };
    let Some(cost) = read_cost(five.cost) else {
        return Ok(None);
    };
    let Some(age) = read_age(five.age) else {
        return Ok(None);
    };
    let Some(key) = read_key_word(alloc, five.key)? else {
        return Ok(None);
    };
    let Some(wanted) = read_wanted(alloc, five.wanted)? else {
        return Ok(None);
    };
    Ok(Some(FilePin {
        key,
        wanted,
        server,
        cost,
        age,
    }))
}

/// The bytes of the key that the word is.
#[tactic(auto, unfolding(crate::specs::Texts::key_of))]
fn read_key_word(alloc: Global, word: &[u8]) -> Result<Option<KeyText>, AllocError>
    ensures { IfOk result (λ key. key ≡ key_of word.now) }
{
    let Some(PinKey::Text(bytes)) = read_key(alloc, None, word)? else {
        return Ok(None);
    };
    if !is_spelled(alloc, bytes.as_bytes(), word)? {
        return Ok(None);
    }
    Ok(Some(bytes))
}

/// Whether the word is the one spelling of the bytes.
fn is_spelled(alloc: Global, bytes: &[u8], word: &[u8]) -> Result<bool, AllocError>
    ensures { IfOk result (λ spelled. spelled ≡ bytes_eq (text_word bytes.now) word.now) }
{
    let mut spelled = Vec::new(alloc);
    push_text_word(&mut spelled, bytes)?;
    Ok(is(&spelled, word))
}

/// The names of wanted servers.
#[tactic(auto, unfolding(crate::specs::Texts::wanted_of))]
fn read_wanted(alloc: Global, word: &[u8]) -> Result<Option<NameList>, AllocError>
    ensures { IfOk result (λ names. names ≡ wanted_of word.now) }
{
    if is(word, b"-") {
        return Ok(Some(NameList::new(Vec::new(alloc))));
    }
    read_names(alloc, Parts::new(word, b','))
}

fn read_names(alloc: Global, mut words: Parts) -> Result<Option<NameList>, AllocError>
    ensures { IfOk result (λ names. names ≡ names_of words.entry) }
{
    let mut names = Vec::new(alloc);
    while let Some(word) = words.next_part() {
        let Ok(name) = Name::read(word) else {
            return Ok(None);
        };
        names.push(name)?;
    }
    Ok(Some(NameList::new(names)))
}

/// The name of the server, if there is one.
#[tactic(auto, unfolding(crate::specs::Texts::server_of))]
fn read_server(word: &[u8]) -> Option<Option<Name>>
    ensures { result ≡ server_of word.now }
{
    if is(word, b"-") {
        return Some(None);
    }
    let name = read_name(word)?;
    Some(Some(name))
}

#[tactic(auto, unfolding(crate::specs::Texts::cost_of))]
fn read_cost(word: &[u8]) -> Option<u16>
    ensures { result ≡ cost_of word.now }
{
    let cost = read_positive(word)?;
    if cost > MAX_COST {
        return None;
    }
    Some(cost as u16)
}

#[tactic(auto, unfolding(crate::specs::Texts::age_of))]
fn read_age(word: &[u8]) -> Option<u64>
    ensures { result ≡ age_of word.now }
{
    let age = numeral(word)?;
    if age == u64::MAX {
        return None;
    }
    Some(age)
}

/// The name that the words after `backend` say.
#[tactic(auto, unfolding(crate::specs::Texts::backend_of))]
pub(crate) fn read_backend_words(words: &mut Parts) -> Option<Name>
    ensures { result ≡ backend_of words.old }
{
    let name = words.next_part()?;
    if words.next_part().is_some() {
        return None;
    }
    read_name(name)
}

fn read_name(word: &[u8]) -> Option<Name>
    ensures none { IfNone result (is_name word.now ≡ false) }
    ensures some { IfSome result (λ name. (name ≡ word.now) × (is_name word.now ≡ true)) }
{
    Name::read(word).ok()
}

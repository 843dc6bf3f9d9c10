ghost use Rattle.std.specs.Prelude.{◌≡◌, IfOk};
ghost use Rattle.std.specs.Char.{is_ascii_hexdigit};
ghost use Rattle.std.specs.List.{list_all};
ghost use Rattle.std.specs.Option.{option_copied};
ghost use Rattle.haproxy_admin.specs.Entries.{entry_of, entry_with, is_address, key_text};
ghost use Rattle.haproxy_admin.specs.Fields.{words_after};

use crate::bytes::Bytes;
use crate::cuts::{cut, without_front};
use crate::fields::{are_fields, number_in, server_in};
use crate::key::read_key;
use std::alloc::{AllocError, Global};

/// An entry of a stick table.
#[derive(Debug, Drop)]
pub struct Entry {
    /// The key.
    pub key: Bytes,
    /// The name of the server that the entry names, if it names one so.
    pub server_name: Option<Bytes>,
    /// The number of the server that the entry names (`srv_id`), if it names one so.
    pub server_number: Option<u64>,
    /// How many milliseconds are left until the entry expires.
    pub left: u64,
}

/// The entry that the line is, or none.
#[tactic(auto, unfolding(crate::specs::Entries::entry_of))]
pub(crate) fn read_entry(alloc: Global, line: &[u8]) -> Result<Option<Entry>, AllocError>
    ensures { IfOk result (λ entry. entry ≡ entry_of line.now) }
{
    let Some(text) = key_text(line) else {
        return Ok(None);
    };
    let Some((key, rest)) = read_key(alloc, text)? else {
        return Ok(None);
    };
    entry_with(alloc, Bytes::new(key), rest)
}

/// The text of the line after its address and `key=`.
#[tactic(auto, unfolding(crate::specs::Entries::key_text))]
fn key_text(line: &[u8]) -> Option<&[u8]>
    ensures { option_copied result ≡ key_text line.now }
{
    let (address, text) = cut(b':', line)?;
    if !is_address(address) {
        return None;
    }
    if !text.starts_with(b" key=") {
        return None;
    }
    Some(without_front(5, text))
}

#[tactic(auto, unfolding(crate::specs::Entries::is_address))]
fn is_address(word: &[u8]) -> bool
    ensures { result ≡ is_address word.now }
{
    if !word.starts_with(b"0x") {
        return false;
    }
    word.len() > 2 && are_hexadecimal(without_front(2, word))
}

fn are_hexadecimal(digits: &[u8]) -> bool
    ensures { result ≡ list_all is_ascii_hexdigit digits.now }
{
    digits.iter().all(|byte| byte.is_ascii_hexdigit())
}

/// The entry of this key, with what the words after it say.
#[tactic(auto, unfolding(crate::specs::Entries::entry_with))]
fn entry_with(alloc: Global, key: Bytes, rest: &[u8]) -> Result<Option<Entry>, AllocError>
    ensures { IfOk result (λ entry. entry ≡ entry_with key (words_after rest.now)) }
{
    if !are_fields(rest) {
        return Ok(None);
    }
    let Some(server_number) = number_in(b"server_id", rest) else {
        return Ok(None);
    };
    let Some(left) = number_in(b"exp", rest) else {
        return Ok(None);
    };
    let server_name = copied(alloc, server_in(rest))?;
    Ok(Some(Entry {
        key,
        server_name,
        server_number,
        left: left.unwrap_or(0),
    }))
}

fn copied(alloc: Global, name: Option<&[u8]>) -> Result<Option<Bytes>, AllocError>
    ensures { IfOk result (λ copy. copy ≡ option_copied name.entry) }
{
    let Some(name) = name else {
        return Ok(None);
    };
    Ok(Some(Bytes::copied_from(alloc, name)?))
}

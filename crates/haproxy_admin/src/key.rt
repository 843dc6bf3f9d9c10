ghost use Rattle.std.specs.Prelude.{◌≡◌, ◌<◌, false, Some, None, length, IfNone, IfSome, IfOk};
ghost use Rattle.std.specs.Option.{option_map};
ghost use Rattle.haproxy_admin.specs.Keys.{byte_of, code_at, digit_of, ends_key, escape_at, key_at, meant, with_byte};

use std::alloc::{AllocError, Global};

/// The key that the text begins with, unescaped, and the text from the blank after it on. None where an escape breaks off.
#[tactic(auto, using(crate::proofs::Escapes::byte_more, crate::proofs::Escapes::broken_off, crate::proofs::Escapes::all_bytes))]
pub(crate) fn read_key(alloc: Global, text: &[u8]) -> Result<Option<(Vec<u8>, &[u8])>, AllocError>
    ensures { IfOk result (λ read. option_map (λ two. (two.0.items, two.1.now)) read ≡ key_at text.now) }
{
    let mut bytes = Vec::new(alloc);
    let mut rest = text;
    while !ends_key(rest) {
        let Some((byte, more)) = read_byte(rest) else {
            return Ok(None);
        };
        bytes.push(byte)?;
        rest = more;
    }
    Ok(Some((bytes, rest)))
}

/// Whether the key ends before this text.
fn ends_key(text: &[u8]) -> bool
    ensures { result ≡ ends_key text.now }
{
    match text.first() {
        Some(byte) => *byte == b' ',
        None => true,
    }
}

/// The byte that the text of a key begins with, unescaped, and what follows it.
#[tactic(auto, unfolding(crate::specs::Keys::key_at))]
fn read_byte(text: &[u8]) -> Option<(u8, &[u8])>
    requires { ends_key text.now ≡ false }
    ensures none { IfNone result (key_at text.now ≡ None) }
    ensures some { IfSome result (λ read. key_at text.now ≡ with_byte (Some read.0) (key_at read.1.now)) }
    ensures shorter { IfSome result (λ read. length read.1.now < length text.now) }
{
    let (first, rest) = text.split_first()?;
    if *first != b'\\' {
        return Some((*first, rest));
    }
    read_escape(rest)
}

/// The byte that a backslash before this text escapes.
#[tactic(auto, unfolding(crate::specs::Keys::key_at))]
fn read_escape(text: &[u8]) -> Option<(u8, &[u8])>
    ensures none { IfNone result (escape_at text.now ≡ None) }
    ensures some { IfSome result (λ read. escape_at text.now ≡ with_byte (Some read.0) (key_at read.1.now)) }
    ensures shorter { IfSome result (λ read. length read.1.now < length text.now) }
{
    let (first, rest) = text.split_first()?;
    if *first != b'x' {
        return Some((meant(*first), rest));
    }
    read_code(rest)
}

/// The byte whose two hexadecimal digits the text begins with.
#[tactic(auto, unfolding(crate::specs::Keys::key_at))]
fn read_code(text: &[u8]) -> Option<(u8, &[u8])>
    ensures none { IfNone result (code_at text.now ≡ None) }
    ensures some { IfSome result (λ read. code_at text.now ≡ with_byte (Some read.0) (key_at read.1.now)) }
    ensures shorter { IfSome result (λ read. length read.1.now < length text.now) }
{
    let (high, rest) = text.split_first()?;
    let (low, more) = rest.split_first()?;
    let byte = byte_of(digit_of(*high), digit_of(*low))?;
    Some((byte, more))
}

/// The byte that a backslash and this byte stand for.
fn meant(byte: u8) -> u8
    ensures { result ≡ meant byte }
{
    match byte {
        b't' => b'\t',
        b'n' => b'\n',
        b'r' => b'\r',
        b'e' => 27,
        _ => byte,
    }
}

/// The byte of two digits.
fn byte_of(high: Option<u8>, low: Option<u8>) -> Option<u8>
    requires high { IfSome high (λ digit. digit < 16) }
    requires low { IfSome low (λ digit. digit < 16) }
    ensures { result ≡ byte_of high low }
{
    match (high, low) {
        (Some(high), Some(low)) => Some(high * 16 + low),
        _ => None,
    }
}

/// The hexadecimal digit that the byte is.
fn digit_of(byte: u8) -> Option<u8>
    ensures exact { result ≡ digit_of byte }
    ensures small { IfSome result (λ digit. digit < 16) }
{
    match byte {
        b'0'..=b'9' => Some(byte - b'0'),
        b'A'..=b'F' => Some(byte - b'A' + 10),
        b'a'..=b'f' => Some(byte - b'a' + 10),
        _ => None,
    }
}

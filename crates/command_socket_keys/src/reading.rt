ghost use Rattle.std.specs.Prelude.{◌≡◌, ◌<◌, ◌∷◌, Some, None, length, take, IfOk, IfNone, IfSome};
ghost use Rattle.command_socket_keys.specs.Keys.{byte_of, bytes_in, digit_of, key_in, key_of, with_byte};

use lb_acl::TableType;
use lb_config_arguments::read_ipv4;
use pin_set::{KeyText, PinKey};
use std::alloc::{AllocError, Global};

/// The key that the word is in a table of this type, or in a backend without a table: `%` and two hexadecimal digits are one byte,
/// and every other byte stands for itself. None where a `%` has no such digits, and where it is no address in a table of type `ip`.
/// A table of type `string` keeps as many bytes as of a request's key.
///
/// It costs one walk over the word, and memory for its bytes. The only error is out of memory.
pub fn read_key(
    alloc: Global,
    table: Option<TableType>,
    word: &[u8],
) -> Result<Option<PinKey>, AllocError>
    ensures { IfOk result (λ key. key ≡ key_in table word.now) }
{
    let Some(bytes) = read_bytes(alloc, word)? else {
        return Ok(None);
    };
    key_of(alloc, table, bytes)
}

/// The key of the bytes.
fn key_of(
    alloc: Global,
    table: Option<TableType>,
    bytes: KeyText,
) -> Result<Option<PinKey>, AllocError>
    ensures { IfOk result (λ key. key ≡ key_of table bytes) }
{
    match table {
        None => Ok(Some(PinKey::Text(bytes))),
        Some(kind) => key_of_type(alloc, kind, bytes.as_bytes()),
    }
}

/// The key of the bytes in a table of the type.
fn key_of_type(alloc: Global, kind: TableType, bytes: &[u8]) -> Result<Option<PinKey>, AllocError>
    ensures { IfOk result (λ key. key ≡ key_of (Some kind) bytes.now) }
{
    match kind {
        TableType::Ip => Ok(read_ipv4(bytes).map(PinKey::Ipv4)),
        TableType::Text(len) => {
            let kept = front(bytes, len.get());
            Ok(Some(PinKey::Text(KeyText::copied_from(alloc, kept)?)))
        }
    }
}

/// The first bytes, at most `len`.
fn front(bytes: &[u8], len: usize) -> &[u8]
    ensures { result.now ≡ take len bytes.now }
{
    let (kept, _) = bytes.split_at(len.min(bytes.len()));
    kept
}

/// The bytes that the word says. None where a `%` isn't the beginning of an escape.
fn read_bytes(alloc: Global, word: &[u8]) -> Result<Option<KeyText>, AllocError>
    ensures { IfOk result (λ bytes. bytes ≡ bytes_in word.now) }
{
    let mut bytes = Vec::new(alloc);
    let mut rest = word;
    while let Some((first, behind)) = rest.split_first() {
        if *first != b'%' {
            bytes.push(*first)?;
            rest = behind;
            continue;
        }
        let Some((byte, more)) = read_escape(behind) else {
            return Ok(None);
        };
        bytes.push(byte)?;
        rest = more;
    }
    Ok(Some(KeyText::new(bytes)))
}

/// The byte that the two digits after a `%` say, and what follows them.
#[tactic(auto, unfolding(crate::specs::Keys::bytes_in))]
fn read_escape(behind: &[u8]) -> Option<(u8, &[u8])>
    ensures none { IfNone result (bytes_in (37 ∷ behind.now) ≡ None) }
    ensures some { IfSome result (λ read. bytes_in (37 ∷ behind.now) ≡ with_byte (Some read.0) (bytes_in read.1.now)) }
    ensures shorter { IfSome result (λ read. length read.1.now < length behind.now) }
{
    let (high, rest) = behind.split_first()?;
    let (low, more) = rest.split_first()?;
    let byte = byte_of(digit_of(*high), digit_of(*low))?;
    Some((byte, more))
}

/// The byte of two digits.
fn byte_of(high: Option<u8>, low: Option<u8>) -> Option<u8>
    requires high { IfSome high (λ digit. digit < 16) }
    requires low { IfSome low (λ digit. digit < 16) }
    ensures { result ≡ byte_of high low }
{
    match (high, low) {
        (Some(high), Some(low)) => Some(high * 16 + low),
        _ => None,
    }
}

/// The hexadecimal digit that the byte is.
fn digit_of(byte: u8) -> Option<u8>
    ensures exact { result ≡ digit_of byte }
    ensures small { IfSome result (λ digit. digit < 16) }
{
    match byte {
        b'0'..=b'9' => Some(byte - b'0'),
        b'A'..=b'F' => Some(byte - b'A' + 10),
        b'a'..=b'f' => Some(byte - b'a' + 10),
        _ => None,
    }
}

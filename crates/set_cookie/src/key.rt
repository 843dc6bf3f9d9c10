ghost use Rattle.std.specs.Prelude.{◌≡◌, IfOk, Some};
ghost use Rattle.std.specs.Option.{option_copied};
ghost use Rattle.lb_acl.specs.Keys.{IsKeyFrom, IsKeyIn};
ghost use Rattle.set_cookie.specs.Lines.{lines_of};
ghost use Rattle.set_cookie.specs.Scans.{head_of, text_by};
ghost use Rattle.set_cookie.specs.TaughtKeys.{IsTaught, learns};

use crate::answer::{may_go_on, taught_by, whole_head};
use crate::bytes::front;
use lb_acl::{KeySample, StickOn, TableType};
use pin_set::{KeyText, PinKey};
use std::alloc::{AllocError, Global};
use std::net::Ipv4Addr;

/// Whether answers can teach this sample something: it is a cookie's.
pub fn learns(sample: &KeySample) -> bool
    ensures exact { result ≡ learns sample.now }
{
    match sample {
        KeySample::Cookie(_) => true,
        KeySample::Source | KeySample::Field(_) => false,
    }
}

/// What the first bytes of an answer teach a table.
#[derive(Debug, Drop, PartialEq, Eq)]
pub enum TaughtKey {
    /// Nothing yet: more bytes may teach something.
    Unfinished,
    /// Nothing, whatever follows.
    Nothing,
    /// This key, whatever follows.
    Key(PinKey),
}

/// What the first bytes of an answer teach a table with this `stick on`. Tests show that a key is that of a request with the cookie; no
/// clause says so.
///
/// It costs two walks over a head that has come whole, and one over another. Only the bytes of a text key are copied. The only error is out
/// of memory.
pub fn taught_key(alloc: Global, pattern: &StickOn, answer: &[u8]) -> Result<TaughtKey, AllocError>
    ensures exact { IfOk result (λ found. IsTaught pattern.now answer.now found) }
{
    let Some(head) = whole_head(answer) else {
        return Ok(if may_go_on(answer) {
            TaughtKey::Unfinished
        } else {
            TaughtKey::Nothing
        });
    };
    match key_by(alloc, pattern, head)? {
        Some(key) => Ok(TaughtKey::Key(key)),
        None => Ok(TaughtKey::Nothing),
    }
}

/// The key that the head which these bytes begin with teaches.
fn key_by(alloc: Global, pattern: &StickOn, head: &[u8]) -> Result<Option<PinKey>, AllocError>
    ensures { IfOk result (λ key. IsKeyFrom pattern.now.table (text_by pattern.now.sample (head_of (lines_of head.now))) key) }
{
    match &pattern.sample {
        KeySample::Cookie(name) => key_of(alloc, pattern.table, taught_by(head, name.as_bytes())),
        KeySample::Source | KeySample::Field(_) => Ok(None),
    }
}

/// The key that a text gives, if one was found.
fn key_of(
    alloc: Global,
    table: TableType,
    found: Option<&[u8]>,
) -> Result<Option<PinKey>, AllocError>
    ensures { IfOk result (λ key. IsKeyFrom table (option_copied found.entry) key) }
{
    let Some(text) = found else {
        return Ok(None);
    };
    if text.is_empty() {
        return Ok(None);
    }
    text_key(alloc, table, text)
}

/// The key that a text gives.
fn text_key(alloc: Global, table: TableType, text: &[u8]) -> Result<Option<PinKey>, AllocError>
    ensures { IfOk result (λ key. IsKeyIn table text.now key) }
{
    match table {
        TableType::Ip => Ok(Ipv4Addr::parse_ascii(text).ok().map(PinKey::Ipv4)),
        TableType::Text(len) => {
            let kept = front(text, len.get());
            Ok(Some(PinKey::Text(KeyText::copied_from(alloc, kept)?)))
        }
    }
}

ghost use Rattle.std.specs.Prelude.{◌≡◌, ◌≤◌, IfOk, length, take};
ghost use Rattle.std.specs.Option.{option_copied};
ghost use Rattle.lb_acl.specs.Keys.{IsKeyOf, IsKeyFrom, IsKeyIn};
ghost use Rattle.std.specs.Net.Addr.{ipv4_octets};
ghost use Rattle.std.specs.Net.Text.{ipv4_text};

use crate::latest::{last_cookie, last_value};
use crate::{Head, Text};
use pin_set::{KeyText, PinKey};
use std::alloc::{AllocError, Global};
use std::marker::Model;
use std::net::Ipv4Addr;

/// What `stick on` takes from a request.
#[derive(Debug, Drop)]
pub enum KeySample {
    /// The client's address: `src`.
    Source,
    /// The last comma-separated value of the last field of this name: `hdr(name)`, `req.hdr(name)`.
    Field(Text),
    /// The value of the last cookie of this name: `cook(name)`, `req.cook(name)`.
    Cookie(Text),
}

/// The most bytes of a key that a table of type `string` may ask for.
pub const MAX_KEY_LEN: u64 = 1024;

/// The largest number of bytes of a key in a table of type `string`, 1 to 1024.
#[derive(Clone, Copy, Debug, PartialEq, Eq)]
pub struct KeyLen {
    bytes: u16,
}

impl Model for KeyLen {
    ghost use Rattle.std.specs.Prelude.{ℕ};
    ghost use Rattle.lb_acl.specs.KeyLens.{IsKeyLen};

    ghost Value = { ℕ };

    ghost view = { λ len. len.bytes };

    ghost invariant = { λ len. IsKeyLen len.bytes };

    ghost inverse = { λ bytes. record { bytes = bytes } };
}

impl KeyLen {
    /// The limit of so many bytes, 1 to 1024.
    pub fn new(bytes: u16) -> Self
        requires least { 1 ≤ bytes }
        requires greatest { bytes ≤ MAX_KEY_LEN }
        ensures { result ≡ bytes }
    {
        KeyLen { bytes }
    }

    /// The number of bytes.
    pub fn get(self) -> usize
        ensures exact { result ≡ self }
        ensures least { 1 ≤ result }
        ensures greatest { result ≤ MAX_KEY_LEN }
    {
        usize::from(self.bytes)
    }
}

/// The type of a stick table's keys.
#[derive(Clone, Copy, Debug, PartialEq, Eq)]
pub enum TableType {
    /// `type ip`.
    Ip,
    /// `type string len <len>`.
    Text(KeyLen),
}

/// A `stick on` line with the type of its section's table.
#[derive(Debug, Drop)]
pub struct StickOn {
    /// What is taken from the request.
    pub sample: KeySample,
    /// The type of the table.
    pub table: TableType,
}

/// The key under which the request's pin stands, or none where what the pattern names is absent or empty, or is no address
/// in a table of type `ip`.
///
/// Only the bytes of a text key are copied. The only error is out of memory.
pub fn pin_key(alloc: Global, pattern: &StickOn, head: &Head) -> Result<Option<PinKey>, AllocError>
    ensures { IfOk result (λ key. IsKeyOf pattern.now head.now key) }
{
    match &pattern.sample {
        KeySample::Source => Ok(Some(source_key(alloc, pattern.table, head.source())?)),
        KeySample::Field(name) => {
            key_of(
                alloc,
                pattern.table,
                last_value(name.as_bytes(), head.fields()),
            )
        }
        KeySample::Cookie(name) => {
            key_of(
                alloc,
                pattern.table,
                last_cookie(name.as_bytes(), head.fields()),
            )
        }
    }
}

/// The key that a client's address gives.
fn source_key(alloc: Global, table: TableType, source: Ipv4Addr) -> Result<PinKey, AllocError>
    ensures { IfOk result (λ key. IsKeyIn table (ipv4_text (ipv4_octets source)) (Some key)) }
{
    match table {
        TableType::Ip => Ok(PinKey::Ipv4(source)),
        TableType::Text(len) => {
            let mut bytes = source.to_string(alloc)?.into_bytes();
            bytes.truncate(len.get());
            Ok(PinKey::Text(KeyText::new(bytes)))
        }
    }
}

/// The key that a text gives, if one was found.
fn key_of(
    alloc: Global,
    table: TableType,
    found: Option<&[u8]>,
) -> Result<Option<PinKey>, AllocError>
    ensures { IfOk result (λ key. IsKeyFrom table (option_copied found.entry) key) }
{
    let Some(text) = found else {
        return Ok(None);
    };
    if text.is_empty() {
        return Ok(None);
    }
    text_key(alloc, table, text)
}

/// The key that a text gives.
fn text_key(alloc: Global, table: TableType, text: &[u8]) -> Result<Option<PinKey>, AllocError>
    ensures { IfOk result (λ key. IsKeyIn table text.now key) }
{
    match table {
        TableType::Ip => Ok(Ipv4Addr::parse_ascii(text).ok().map(PinKey::Ipv4)),
        TableType::Text(len) => {
            let kept = front(text, len.get());
            Ok(Some(PinKey::Text(KeyText::copied_from(alloc, kept)?)))
        }
    }
}

/// The first bytes, at most `len`.
fn front(text: &[u8], len: usize) -> &[u8]
    ensures { result.now ≡ take len text.now }
{
    let (kept, _) = text.split_at(len.min(text.len()));
    kept
}

ghost use Rattle.std.specs.Prelude.{◌≡◌, ◌==◌, ◌&&◌, not, true, false, codes};
ghost use Rattle.std.specs.List.{list_any};
ghost use Rattle.lb_acl.specs.Bytes.{is_equal, trimmed};
ghost use Rattle.lb_acl.specs.Fields.{is_named};
ghost use Rattle.http_relay_forward.specs.Framing.{is_length_field, is_coding_field, length_of, told_length, tells, has_bad_length, first_length, lengths_differ, is_coded, is_chunked, has_chunks, has_bad_coding, names_framing, is_bad, has_both_lengths, told_end, framing, has_body, expects_continue};

use crate::names::{CONTENT_LENGTH, EXPECT, HOST, TRANSFER_ENCODING};
use crate::options::is_option;
use lb_acl::{Field, Head, Version, trimmed};
use lb_types_text::Digits;
use thiserror::Error;

/// How the end of a request's body is found.
#[derive(Clone, Copy, Debug, PartialEq, Eq)]
pub enum BodyKind {
    /// The request has no body.
    Empty,
    /// The body has so many bytes, below 10^18.
    Length(u64),
    /// The body is chunks, of which the last is empty.
    Chunked,
}

/// Why no server may see a head.
#[derive(Clone, Copy, Debug, PartialEq, Eq, Error)]
pub enum HeadRefusal {
    /// The method is `CONNECT`, `Connection` names a field that gives the host or frames the body, the transfer coding
    /// isn't the one `chunked` of HTTP/1.1, or a length isn't 1 to 18 digits.
    #[error("the head is not one that a server may see")]
    BadHead,
    /// The length of the body is given twice, and not alike.
    #[error("the length of the body is told in two ways")]
    BothLengths,
}

/// How the end of the request's body is found, or why the head is refused. It walks the fields some ten times and
/// allocates nothing.
#[tactic(auto, unfolding(crate::specs::Framing::framing))]
pub fn body_kind(head: &Head) -> Result<BodyKind, HeadRefusal>
    ensures { result ≡ framing head.now }
{
    if is_bad(head) {
        return Err(HeadRefusal::BadHead);
    }
    let fields = head.fields();
    if has_both_lengths(fields) {
        return Err(HeadRefusal::BothLengths);
    }
    Ok(told_end(fields))
}

/// Whether the client waits for a `100 Continue` before it sends a body of this kind.
pub fn expects_continue(head: &Head, kind: BodyKind) -> bool
    ensures { result ≡ expects_continue head.now kind }
{
    has_chunks(head.version()) && has_body(kind) && has_expectation(head.fields())
}

fn has_expectation(fields: &[Field]) -> bool
    ensures { result ≡ list_any (λ field. is_named (codes "Expect") field
        && is_equal true (trimmed field.value) (codes "100-continue")) fields.now }
{
    fields.iter().any(|field| {
        field.is_named(EXPECT) && trimmed(field.value()).eq_ignore_ascii_case(b"100-continue")
    })
}

fn has_body(kind: BodyKind) -> bool
    ensures { result ≡ has_body kind }
{
    match kind {
        BodyKind::Empty => false,
        BodyKind::Length(length) => length > 0,
        BodyKind::Chunked => true,
    }
}

fn is_bad(head: &Head) -> bool
    ensures { result ≡ is_bad head.now }
{
    let fields = head.fields();
    head.method() == b"CONNECT".as_slice()
        || names_framing(fields)
        || has_bad_coding(head)
        || has_bad_length(fields)
}

fn names_framing(fields: &[Field]) -> bool
    ensures { result ≡ names_framing fields.now }
{
    is_option(fields, HOST)
        || is_option(fields, CONTENT_LENGTH)
        || is_option(fields, TRANSFER_ENCODING)
}

fn has_chunks(version: Version) -> bool
    ensures { result ≡ has_chunks version }
{
    version == Version::Http11
}

fn has_bad_coding(head: &Head) -> bool
    ensures { result ≡ has_bad_coding head.now }
{
    let fields = head.fields();
    is_coded(fields) && !(has_chunks(head.version()) && is_chunked(fields))
}

fn is_coding_field(field: &Field) -> bool
    ensures { result ≡ is_coding_field field.now }
{
    field.is_named(TRANSFER_ENCODING)
}

fn is_coded(fields: &[Field]) -> bool
    ensures { result ≡ is_coded fields.now }
{
    fields.iter().any(is_coding_field)
}

fn is_chunked(fields: &[Field]) -> bool
    ensures { result ≡ is_chunked fields.now }
{
    fields.iter().filter(|field| is_coding_field(field)).count() == 1 && names_chunked(fields)
}

fn names_chunked(fields: &[Field]) -> bool
    ensures { result ≡ list_any (λ field. is_coding_field field && is_equal true (trimmed field.value) (codes "chunked")) fields.now }
{
    fields.iter().any(|field| {
        is_coding_field(field) && trimmed(field.value()).eq_ignore_ascii_case(b"chunked")
    })
}

fn has_both_lengths(fields: &[Field]) -> bool
    ensures { result ≡ has_both_lengths fields.now }
{
    (is_coded(fields) && has_length(fields)) || lengths_differ(fields)
}

fn is_length_field(field: &Field) -> bool
    ensures { result ≡ is_length_field field.now }
{
    field.is_named(CONTENT_LENGTH)
}

fn has_length(fields: &[Field]) -> bool
    ensures { result ≡ list_any is_length_field fields.now }
{
    fields.iter().any(is_length_field)
}

fn has_bad_length(fields: &[Field]) -> bool
    ensures { result ≡ has_bad_length fields.now }
{
    fields.iter().any(|field| is_length_field(field) && told_length(field).is_none())
}

fn lengths_differ(fields: &[Field]) -> bool
    ensures { result ≡ lengths_differ fields.now }
{
    match first_length(fields) {
        Some(length) => is_another_told(length, fields),
        None => false,
    }
}

fn is_another_told(length: u64, fields: &[Field]) -> bool
    ensures { result ≡ list_any (λ field. is_length_field field && not (tells length field)) fields.now }
{
    fields
        .iter()
        .any(|field| is_length_field(field) && !tells(length, field))
}

fn tells(length: u64, field: &Field) -> bool
    ensures { result ≡ tells length field.now }
{
    match told_length(field) {
        Some(told) => told == length,
        None => false,
    }
}

fn first_length(fields: &[Field]) -> Option<u64>
    ensures { result ≡ first_length fields.now }
{
    for field in fields {
        if is_length_field(field) {
            return told_length(field);
        }
    }
    None
}

fn told_length(field: &Field) -> Option<u64>
    ensures { result ≡ told_length field.now }
{
    length_of(trimmed(field.value()))
}

fn length_of(text: &[u8]) -> Option<u64>
    ensures { result ≡ length_of text.now }
{
    if text.len() > 18 {
        return None;
    }
    match Digits::read(text) {
        Digits::Value(length) => Some(length),
        Digits::Misspelt | Digits::TooLarge => None,
    }
}

fn told_end(fields: &[Field]) -> BodyKind
    ensures { result ≡ told_end fields.now }
{
    if is_coded(fields) {
        return BodyKind::Chunked;
    }
    match first_length(fields) {
        Some(length) => BodyKind::Length(length),
        None => BodyKind::Empty,
    }
}

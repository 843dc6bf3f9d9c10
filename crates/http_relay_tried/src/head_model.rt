//! What the profile says of a head.

use crate::byte_wire::front;
use crate::head::{Head, Name, Says, Word, add_words, version_text};
use crate::round::Round;
use crate::site::Place;
use http_relay_head::HEAD_ROOM;
use http_relay_serve::{Cause, DropCause, Outcome};
use http_relay_wire::WireFault;
use lb_acl::{KeySample, TableType, Version};
use pin_set::{KeyText, PinKey};
use std::alloc::{AllocError, Global};
use std::net::Ipv4Addr;

/// How the end of a body is found.
#[derive(Clone, Copy)]
pub(crate) enum Kind {
    Empty,
    Length(u64),
    Chunked,
}

/// How the request ends at its head, and how it may end else: not at all where the head is whole and good, and mostly in one way.
pub(crate) fn head_ends(round: &Round) -> (Option<Outcome>, Option<Outcome>) {
    let came = round.came();
    let size = round.text.bytes.len();
    let too_many_at = round.text.too_many_at;
    let too_large = Outcome::Answered(Cause::HeadTooLarge);
    if round.spoilt_at.is_some_and(|at| came > at) {
        (Some(Outcome::Answered(Cause::BadHead)), None)
    } else if (size > HEAD_ROOM && came >= HEAD_ROOM) || (too_many_at.is_some() && came >= size) {
        (Some(too_large), None)
    } else if came >= size {
        match refusal(&round.head) {
            Some(cause) => (Some(Outcome::Answered(cause)), None),
            None => (None, None),
        }
    } else if too_many_at.is_some_and(|at| came > at) {
        // Within the field that is one too many, either may be reported.
        (Some(cut(round)), Some(too_large))
    } else {
        (Some(cut(round)), None)
    }
}

/// How it ends where the client is cut off within its head.
fn cut(round: &Round) -> Outcome {
    match round.client.then {
        None => Outcome::Answered(Cause::HeadCutShort),
        Some(WireFault::Timeout) => Outcome::Answered(Cause::HeadTimedOut),
        Some(WireFault::Broken) => Outcome::Dropped(DropCause::HeadBroken),
    }
}

/// Why no server may see the head.
fn refusal(head: &Head) -> Option<Cause> {
    let (mut codings, mut lengths) = (0u64, 0u64);
    let (mut has_bad_coding, mut has_bad_length) = (false, false);
    for line in &head.lines {
        match line.says {
            Says::Coding(is_chunked) => {
                codings = codings.saturating_add(1);
                has_bad_coding = has_bad_coding || !is_chunked;
            }
            Says::Length(told) => {
                lengths = lengths.saturating_add(1);
                has_bad_length = has_bad_length || told.is_none();
            }
            _ => {}
        }
    }
    let is_uncoded = codings == 0;
    let is_chunked = codings == 1 && !has_bad_coding && head.version == Version::Http11;
    let names_framing = is_option(head, Name::Host)
        || is_option(head, Name::ContentLength)
        || is_option(head, Name::TransferEncoding);
    let has_framing = is_uncoded || is_chunked;
    if head.method == "CONNECT" || names_framing || !has_framing || has_bad_length {
        return Some(Cause::BadHead);
    }
    if (is_chunked && lengths > 0) || lengths_differ(head) {
        return Some(Cause::BothLengths);
    }
    None
}

fn lengths_differ(head: &Head) -> bool {
    let mut first = None;
    for line in &head.lines {
        if let Says::Length(Some(length)) = line.says {
            if first.is_some_and(|told: u64| told != length) {
                return true;
            }
            first = Some(length);
        }
    }
    false
}

/// Whether a `Connection` names this field.
fn is_option(head: &Head, name: Name) -> bool {
    for line in &head.lines {
        if let Says::Options(options) = &line.says {
            if options.contains(&name) {
                return true;
            }
        }
    }
    false
}

/// How the end of the body is found in a head that isn't refused.
pub(crate) fn kind_of(head: &Head) -> Kind {
    let mut kind = Kind::Empty;
    for line in &head.lines {
        match line.says {
            Says::Length(Some(length)) => kind = Kind::Length(length),
            Says::Coding(_) => kind = Kind::Chunked,
            _ => {}
        }
    }
    kind
}

/// Whether the client waits for leave to send its body.
pub(crate) fn waits(head: &Head, kind: Kind) -> bool {
    let has_body = match kind {
        Kind::Empty => false,
        Kind::Length(length) => length > 0,
        Kind::Chunked => true,
    };
    let does_wait = head
        .lines
        .iter()
        .any(|line| matches!(line.says, Says::Waits));
    has_body && does_wait && head.version == Version::Http11
}

/// Adds the head that the server gets.
pub(crate) fn add_forwarded(
    round: &Round,
    place: &Place,
    text: &mut Vec<u8>,
) -> Result<(), AllocError> {
    let head = &round.head;
    add_words(
        text,
        &[
            head.method,
            " ",
            head.target,
            " ",
            version_text(head.version),
            "\r\n",
        ],
    )?;
    for line in &head.lines {
        let is_ours = line.name == Name::Connection || line.name == Name::Expect;
        if !is_ours && !is_option(head, line.name) {
            add_words(text, &[line.spelled, ": "])?;
            text.extend_from_slice(&line.value)?;
            text.extend_from_slice(b"\r\n")?;
        }
    }
    text.extend_from_slice(b"Connection: close\r\n")?;
    if place.forwards_address {
        add_words(text, &["X-Forwarded-For: ", round.source.text, "\r\n"])?;
    }
    text.extend_from_slice(b"\r\n")
}

/// The key under which the request's pin stands.
pub(crate) fn key_of(
    alloc: Global,
    round: &Round,
    place: &Place,
) -> Result<Option<PinKey>, AllocError> {
    let found = match place.pattern.sample {
        KeySample::Source => Some(round.source),
        KeySample::Field(_) => last_key(&round.head, Name::Id),
        KeySample::Cookie(_) => last_key(&round.head, Name::Cookie),
    };
    key_by(alloc, place.pattern.table, found)
}

/// The key that a table makes of this word.
pub(crate) fn key_by(
    alloc: Global,
    table: TableType,
    found: Option<Word>,
) -> Result<Option<PinKey>, AllocError> {
    let Some(word) = found else {
        return Ok(None);
    };
    if word.text.is_empty() {
        return Ok(None);
    }
    match table {
        TableType::Ip => Ok(
            word.address
                .map(|(a, b, c, d)| PinKey::Ipv4(Ipv4Addr::new(a, b, c, d))),
        ),
        TableType::Text(most) => {
            let kept = front(word.text.as_bytes(), most.get());
            Ok(Some(PinKey::Text(KeyText::copied_from(alloc, kept)?)))
        }
    }
}

/// The last key in fields of this name.
fn last_key(head: &Head, name: Name) -> Option<Word> {
    let mut found = None;
    for line in &head.lines {
        if let Says::Key(word) = line.says {
            if line.name == name {
                found = Some(word);
            }
        }
    }
    found
}

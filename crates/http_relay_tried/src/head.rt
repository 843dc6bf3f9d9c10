//! The head of a request in its parts, each of which knows what it says.

use lb_acl::Version;
use std::alloc::{AllocError, Global};

/// The names of the fields.
#[derive(Clone, Copy, PartialEq, Eq)]
pub(crate) enum Name {
    Host,
    Connection,
    Expect,
    ContentLength,
    TransferEncoding,
    Cookie,
    Id,
    KeepAlive,
    ForwardedFor,
    Trace,
}

impl Name {
    /// The name in three spellings.
    pub(crate) fn spellings(self) -> [&'static str; 3] {
        match self {
            Name::Host => ["Host", "host", "HOST"],
            Name::Connection => ["Connection", "connection", "cOnnection"],
            Name::Expect => ["Expect", "expect", "EXPECT"],
            Name::ContentLength => ["Content-Length", "content-length", "CONTENT-length"],
            Name::TransferEncoding => [
                "Transfer-Encoding",
                "transfer-encoding",
                "Transfer-ENCODING",
            ],
            Name::Cookie => ["Cookie", "cookie", "COOKIE"],
            Name::Id => ["X-Id", "x-id", "X-ID"],
            Name::KeepAlive => ["Keep-Alive", "keep-alive", "KEEP-ALIVE"],
            Name::ForwardedFor => ["X-Forwarded-For", "x-forwarded-for", "X-FORWARDED-FOR"],
            Name::Trace => ["X-Trace", "x-trace", "X-TRACE"],
        }
    }
}

/// What a line says beside its bytes.
#[derive(Drop)]
pub(crate) enum Says {
    /// Nothing that matters here.
    Nothing,
    /// These fields concern this connection alone.
    Options(Vec<Name>),
    /// The client waits for leave to send its body.
    Waits,
    /// The body has so many bytes. Without a number no good length is given.
    Length(Option<u64>),
    /// The body is coded, and whether by the one coding `chunked`.
    Coding(bool),
    /// This is the last of the keys in the line.
    Key(Word),
}

/// A key as a request spells it.
#[derive(Clone, Copy)]
pub(crate) struct Word {
    pub(crate) text: &'static str,
    /// The address that it is, if it is one.
    pub(crate) address: Option<(u8, u8, u8, u8)>,
}

/// A line of a field.
#[derive(Drop)]
pub(crate) struct Line {
    pub(crate) name: Name,
    pub(crate) spelled: &'static str,
    /// What stands between the colon and the value.
    pub(crate) before: &'static str,
    pub(crate) value: Vec<u8>,
    /// The blanks after the value, and the end of the line.
    pub(crate) behind: &'static str,
    pub(crate) says: Says,
}

/// The head of a request.
#[derive(Drop)]
pub(crate) struct Head {
    pub(crate) empty_lines: &'static str,
    pub(crate) method: &'static str,
    pub(crate) target: &'static str,
    pub(crate) version: Version,
    /// The end of the first line and of the last.
    pub(crate) line_end: &'static str,
    pub(crate) lines: Vec<Line>,
}

/// The most fields that a head may have.
pub(crate) const MOST_FIELDS: usize = 100;

/// A head as its client sends it.
#[derive(Drop)]
pub(crate) struct HeadText {
    pub(crate) bytes: Vec<u8>,
    /// Where the first field stands that is one too many, if there is one.
    pub(crate) too_many_at: Option<usize>,
}

impl Head {
    /// The head as its client sends it.
    pub(crate) fn text(&self, alloc: Global) -> Result<HeadText, AllocError> {
        let mut text = HeadText {
            bytes: Vec::new(alloc),
            too_many_at: None,
        };
        self.add_to(&mut text)?;
        Ok(text)
    }

    fn add_to(&self, text: &mut HeadText) -> Result<(), AllocError> {
        add_words(
            &mut text.bytes,
            &[self.empty_lines, self.method, " ", self.target, " "],
        )?;
        add_words(
            &mut text.bytes,
            &[version_text(self.version), self.line_end],
        )?;
        for (number, line) in self.lines.iter().enumerate() {
            if number == MOST_FIELDS {
                text.too_many_at = Some(text.bytes.len());
            }
            line.add_to(&mut text.bytes)?;
        }
        text.bytes.extend_from_slice(self.line_end.as_bytes())
    }
}

impl Line {
    fn add_to(&self, bytes: &mut Vec<u8>) -> Result<(), AllocError> {
        add_words(bytes, &[self.spelled, ":", self.before])?;
        bytes.extend_from_slice(&self.value)?;
        bytes.extend_from_slice(self.behind.as_bytes())
    }
}

/// Adds these words, one after the other.
pub(crate) fn add_words(bytes: &mut Vec<u8>, words: &[&str]) -> Result<(), AllocError> {
    for word in words {
        bytes.extend_from_slice(word.as_bytes())?;
    }
    Ok(())
}

/// The version as it is spelled.
pub(crate) fn version_text(version: Version) -> &'static str {
    match version {
        Version::Http10 => "HTTP/1.0",
        Version::Http11 => "HTTP/1.1",
    }
}

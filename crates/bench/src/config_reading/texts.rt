//! Texts that cost much for their bytes.

use std::alloc::{AllocError, Global};

/// A kind of configuration.
#[derive(Clone, Copy, Debug, PartialEq, Eq)]
pub(crate) enum Kind {
    /// Sections with as many ACLs as may be, of different names, and rules each of whose tests names the last one.
    Conditions,
    /// A `defaults` section of half the text, and frontends after it.
    Defaults,
    /// An `option httpchk` of half the text, and servers that are all checked by it.
    LongCheck,
    /// As many servers as may be.
    Servers,
    /// References to the last backend.
    References,
    /// As many frontends as may be.
    Frontends,
}

pub(crate) const KINDS: [Kind; 6] = [
    Kind::Conditions,
    Kind::Defaults,
    Kind::LongCheck,
    Kind::Servers,
    Kind::References,
    Kind::Frontends,
];

impl Kind {
    pub(crate) fn name(self) -> &'static str {
        match self {
            Kind::Conditions => "conditions",
            Kind::Defaults => "defaults",
            Kind::LongCheck => "a long check",
            Kind::Servers => "servers",
            Kind::References => "references",
            Kind::Frontends => "frontends",
        }
    }

    /// A text of this kind with at most so many bytes, and little fewer.
    pub(crate) fn text(self, alloc: Global, size: usize) -> Result<Vec<u8>, AllocError> {
        let mut text = Text {
            bytes: Vec::new(alloc),
            size,
            is_full: false,
        };
        self.push_head(alloc, &mut text)?;
        for number in 0..1_048_576 {
            if text.is_full {
                break;
            }
            self.push_part(alloc, &mut text, number)?;
        }
        Ok(text.bytes)
    }

    fn push_head(self, alloc: Global, text: &mut Text) -> Result<(), AllocError> {
        match self {
            Kind::Conditions | Kind::Servers | Kind::Frontends => Ok(()),
            Kind::Defaults => {
                text.push(b"defaults\n")?;
                push_half(text, b"mode http\n")
            }
            Kind::LongCheck => {
                text.push(b"defaults\noption httpchk /")?;
                push_half(text, b"x")?;
                text.push(b"\n")
            }
            Kind::References => {
                for number in 0..63 {
                    push_line(alloc, text, b"backend ", number, b"")?;
                }
                text.push(b"backend b\nfrontend f\n")
            }
        }
    }

    fn push_part(self, alloc: Global, text: &mut Text, number: usize) -> Result<(), AllocError> {
        match self {
            Kind::Conditions => push_conditions(alloc, text, number),
            Kind::Defaults | Kind::Frontends => {
                push_line(alloc, text, b"frontend ", number, b"")
            }
            Kind::LongCheck | Kind::Servers => push_server(alloc, text, number),
            Kind::References => text.push(b"default_backend b\n"),
        }
    }
}

/// Parts up to half the size of the text.
fn push_half(text: &mut Text, part: &[u8]) -> Result<(), AllocError> {
    for _ in 0..1_048_576 {
        if text.bytes.len() >= text.size / 2 {
            break;
        }
        text.push(part)?;
    }
    Ok(())
}

/// A line with a number in it.
fn push_line(
    alloc: Global,
    text: &mut Text,
    front: &[u8],
    number: usize,
    back: &[u8],
) -> Result<(), AllocError> {
    let number = number.to_string(alloc)?;
    let mut line = Vec::from_slice(alloc, front)?;
    line.extend_from_slice(number.as_bytes())?;
    line.extend_from_slice(back)?;
    line.push(b'\n')?;
    text.push(&line)
}

/// A server, after the header of a backend where the last one has 128.
fn push_server(alloc: Global, text: &mut Text, number: usize) -> Result<(), AllocError> {
    if number >= 64 * 128 {
        text.is_full = true;
        return Ok(());
    }
    if number % 128 == 0 {
        push_line(alloc, text, b"backend ", number, b"")?;
    }
    push_line(alloc, text, b"server ", number, b" 1.2.3.4:1")
}

/// A backend with 256 ACLs of different names and 256 rules, each with as many tests as it has room for.
fn push_conditions(alloc: Global, text: &mut Text, number: usize) -> Result<(), AllocError> {
    if number >= 64 {
        text.is_full = true;
        return Ok(());
    }
    push_line(alloc, text, b"backend ", number, b"")?;
    for place in 0..255 {
        push_line(alloc, text, b"acl ", place, b" path /")?;
    }
    text.push(b"acl z path /\n")?;
    let mut rule = Vec::from_slice(alloc, b"pin-cost 1 if")?;
    for _ in 0..61 {
        rule.extend_from_slice(b" z")?;
    }
    rule.push(b'\n')?;
    for _ in 0..256 {
        text.push(&rule)?;
    }
    Ok(())
}

/// A text that takes whole parts up to a size, and nothing more once one didn't fit.
#[derive(Drop)]
struct Text {
    bytes: Vec<u8>,
    size: usize,
    is_full: bool,
}

impl Text {
    /// Appends the part, if it fits.
    fn push(&mut self, part: &[u8]) -> Result<(), AllocError> {
        if self.is_full || self.bytes.len().saturating_add(part.len()) > self.size {
            self.is_full = true;
            return Ok(());
        }
        self.bytes.extend_from_slice(part)
    }
}

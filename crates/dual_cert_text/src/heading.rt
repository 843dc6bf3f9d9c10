ghost use Rattle.std.specs.Prelude.{◌≡◌};
ghost use Rattle.lb_types_text.specs.Parts.{parts};
ghost use Rattle.dual_cert_text.specs.Faults.{Reads};
ghost use Rattle.dual_cert_text.specs.Texts.{line_of, form_of, version_of, heading_at};

use crate::TextFault;
use crate::words::{is, read_keyed};
use lb_types_text::{Parts, cut};

/// The first two lines of a text.
#[derive(Debug, Drop)]
pub struct Heading<'a> {
    /// Whether the text is of version 2.
    pub is_second: bool,
    /// The version of the table.
    pub version: u64,
    /// The text after the two lines.
    pub rest: &'a [u8],
}

/// The first line, without its end, and the text after it.
#[tactic(auto, unfolding(crate::specs::Texts::line_of))]
fn read_line(text: &[u8]) -> Result<(&[u8], &[u8]), TextFault>
    ensures { Reads
        (λ x. record { line = x.0.now; rest = parts 10 x.1.now })
        result
        (line_of (parts 10 text.now)) }
{
    cut(text, b'\n').ok_or(TextFault::Truncated)
}

#[tactic(auto, unfolding(crate::specs::Texts::form_of))]
fn read_form(word: &[u8], line: &[u8]) -> Option<bool>
    ensures { result ≡ form_of word.now (parts 32 line.now) }
{
    let mut words = Parts::new(line, b' ');
    let first = words.next_part()?;
    let form = words.next_part()?;
    if words.next_part().is_some() {
        return None;
    }
    if !is(first, word) {
        return None;
    }
    if is(form, b"1") {
        return Some(false);
    }
    is(form, b"2").then_some(true)
}

#[tactic(auto, unfolding(crate::specs::Texts::version_of))]
fn read_version(line: &[u8]) -> Option<u64>
    ensures { result ≡ version_of (parts 32 line.now) }
{
    let mut words = Parts::new(line, b' ');
    let word = words.next_part()?;
    let number = words.next_part()?;
    if words.next_part().is_some() {
        return None;
    }
    read_keyed(b"version", word, number)
}

/// The heading of a text whose first word is `word`.
#[tactic(auto, unfolding(crate::specs::Texts::heading_at))]
pub fn read_heading<'a>(word: &[u8], text: &'a [u8]) -> Result<Heading<'a>, TextFault>
    ensures { Reads
        (λ h. record { is_second = h.is_second; version = h.version; rest = parts 10 h.rest.now })
        result
        (heading_at word.now (parts 10 text.now)) }
{
    let (first, text) = read_line(text)?;
    let is_second = read_form(word, first).ok_or(TextFault::BadLine(1))?;
    let (second, rest) = read_line(text)?;
    let version = read_version(second).ok_or(TextFault::BadLine(2))?;
    if version > 1 << 63 {
        return Err(TextFault::TooLarge);
    }
    Ok(Heading {
        is_second,
        version,
        rest,
    })
}

ghost use Rattle.std.specs.Prelude.{◌≡◌, ◌≤◌, length, IfOk, IfNone};
ghost use Rattle.lb_config_words.specs.Lines.{lines_of, without_return};
ghost use Rattle.lb_config_words.specs.Texts.{reading, text_fault, Gives, line_behind};

use crate::line::push_line;
use crate::{Line, TextFault, WordsFault};
use lb_types_text::{Parts, cut};
use std::alloc::{AllocError, Global};
use std::str::from_utf8;

/// How many bytes a text may have.
const MAX_BYTES: usize = 1_048_576;

/// The lines of a configuration that say something, each with its words.
///
/// A text of more than 1048576 bytes is `TooLong`, and else one that is not UTF-8 is `NotUtf8` at the line of its first bad
/// byte. Lines end with LF or with CR LF, the last one's end may be missing, and a CR elsewhere is a byte of a word. Words
/// are separated by spaces and tabs; quotes, backslashes and comments are resolved. One walk over the text, another one
/// over what is in double quotes; the memory is that of the words.
#[tactic(auto, unfolding(crate::specs::Texts::reading))]
pub fn read_lines(alloc: Global, text: &[u8]) -> Result<Vec<Line>, WordsFault>
    ensures { Gives (λ lines. lines.items) result (reading text.now) }
{
    if let Some(fault) = text_fault(text) {
        return Err(WordsFault::Text(fault));
    }
    let lines = split_lines(alloc, text)?;
    Ok(lines)
}

/// Why the text has no lines, if it has none.
#[tactic(auto, unfolding(crate::specs::Texts::text_fault))]
fn text_fault(text: &[u8]) -> Option<TextFault>
    ensures exact { result ≡ text_fault text.now }
    ensures short { IfNone result (length text.now ≤ MAX_BYTES) }
{
    if text.len() > MAX_BYTES {
        return Some(TextFault::TooLong);
    }
    let error = from_utf8(text).err()?;
    let (front, _) = text.split_at(error.valid_up_to());
    Some(TextFault::NotUtf8(line_behind(front)))
}

/// The number of the line in which the byte after this front stands.
fn line_behind(front: &[u8]) -> u32
    requires { length front.now ≤ MAX_BYTES }
    ensures { result ≡ line_behind front.now }
{
    let mut number: u32 = 0;
    let mut parts = Parts::new(front, b'\n');
    while parts.next_part().is_some() {
        number += 1;
    }
    number
}

/// The lines of a text that is short enough.
fn split_lines(alloc: Global, text: &[u8]) -> Result<Vec<Line>, AllocError>
    requires { length text.now ≤ MAX_BYTES }
    ensures { IfOk result (λ lines. lines.items ≡ lines_of text.now) }
{
    let mut lines = Vec::new(alloc);
    let mut rest = text;
    let mut number: u32 = 1;
    while let Some((line, behind)) = cut(rest, b'\n') {
        push_line(alloc, &mut lines, number, without_return(line))?;
        rest = behind;
        number += 1;
    }
    push_line(alloc, &mut lines, number, rest)?;
    Ok(lines)
}

/// The bytes without the carriage return at their end.
#[tactic(auto, unfolding(crate::specs::Lines::without_return))]
fn without_return(bytes: &[u8]) -> &[u8]
    ensures { result.now ≡ without_return bytes.now }
{
    match bytes.last() {
        Some(b'\r') => {
            let (kept, _) = bytes.split_at(bytes.len() - 1);
            kept
        }
        _ => bytes,
    }
}

ghost use Rattle.std.specs.Prelude.{◌≡◌, ◌<◌, false, not, [], ◌∷◌, length, position, slice_index, IfNone, IfSome};
ghost use Rattle.sheet_format.specs.Words.{is_blank, before_comment, words_of};

use lb_types_text::cut;
use std::marker::Model;

/// The words of some bytes, one after another. As a value it is the list of the words not yet given.
#[derive(Debug, Drop)]
pub(crate) struct Words<'a> {
    rest: &'a [u8],
}

impl<'a> Model for Words<'a> {
    ghost use Rattle.std.specs.Prelude.{List, ℕ};
    ghost use Rattle.sheet_format.specs.Words.{words_of};

    ghost Value = { List (List ℕ) };

    ghost view = { λ w. words_of w.rest.now };
}

impl<'a> Words<'a> {
    ghost use Rattle.sheet_format.specs.Words.{line_words};

    /// All words of the line, which may end with a comment.
    pub(crate) fn of_line(line: &'a [u8]) -> Self
        ensures { result ≡ line_words line.now }
    {
        Words {
            rest: before_comment(line),
        }
    }

    /// The next word, or none once all were given.
    pub(crate) fn next_word(&mut self) -> Option<&'a [u8]>
        ensures first { IfSome result (λ word. self.old ≡ word.now ∷ self.new) }
        ensures none { IfNone result ((self.old ≡ []) × (self.new ≡ [])) }
    {
        let text = from_word(self.rest)?;
        let (word, behind) = cut_word(text);
        self.rest = behind;
        Some(word)
    }
}

/// The bytes of the line before its first `#`.
fn before_comment(line: &[u8]) -> &[u8]
    ensures { result.now ≡ before_comment line.now }
{
    match cut(line, b'#') {
        Some((before, _)) => before,
        None => line,
    }
}

/// The bytes from the first word on, or none if there is no word.
fn from_word(bytes: &[u8]) -> Option<&[u8]>
    ensures same { IfSome result (λ text. words_of bytes.now ≡ words_of text.now) }
    ensures some { IfSome result (λ text. 0 < length text.now) }
    ensures begins { IfSome result (λ text. is_blank (slice_index text.now 0) ≡ false) }
    ensures none { IfNone result (words_of bytes.now ≡ []) }
{
    let begin = first_filled(bytes)?;
    let (_, text) = bytes.split_at(begin);
    Some(text)
}

/// The word that the text begins with, and what follows it.
fn cut_word(text: &[u8]) -> (&[u8], &[u8])
    requires some { 0 < length text.now }
    requires begins { is_blank (slice_index text.now 0) ≡ false }
    ensures { words_of text.now ≡ result.0.now ∷ words_of result.1.now }
{
    match first_blank(text) {
        Some(end) => text.split_at(end),
        None => text.split_at(text.len()),
    }
}

fn first_filled(bytes: &[u8]) -> Option<usize>
    ensures { result ≡ position (λ byte. not (is_blank byte)) bytes.now }
{
    bytes.iter().position(|byte| !is_blank(*byte))
}

fn first_blank(bytes: &[u8]) -> Option<usize>
    ensures { result ≡ position is_blank bytes.now }
{
    bytes.iter().position(|byte| is_blank(*byte))
}

fn is_blank(byte: u8) -> bool
    ensures { result ≡ is_blank byte }
{
    byte == b' ' || byte == b'\t' || byte == b'\r'
}

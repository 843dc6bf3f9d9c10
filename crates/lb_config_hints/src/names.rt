//! Names that are one letter off a declared one.
use crate::near::is_near;
use lb_config_arguments::is;
use lb_config_words::{Line, Word};

/// The name that was probably meant in a line with these words, which uses one that no line declares.
///
/// It takes a walk over all lines, and one more for each word of a condition.
pub(crate) fn meant_name<'a>(words: &[Word], lines: &'a [Line]) -> Option<&'a [u8]> {
    let first = word_at(words, 0);
    let used = word_at(words, 1);
    let named = if is(first, b"use_backend") || is(first, b"default_backend") {
        near_name(&["backend", "listen"], used, lines)
    } else if is(first, b"use-server") {
        near_name(&["server"], used, lines)
    } else {
        None
    };
    named.or_else(|| meant_in_condition(words, lines))
}

/// The name of an `acl` line that was probably meant by a word of a condition, which begins after `if` or `unless`, the line's third word.
fn meant_in_condition<'a>(words: &[Word], lines: &'a [Line]) -> Option<&'a [u8]> {
    let condition = words.get(3..)?;
    condition.iter().find_map(|word| near_name(&["acl"], without_not(word.as_bytes()), lines))
}

/// The word without `!` before it.
fn without_not(word: &[u8]) -> &[u8] {
    word.strip_prefix(b"!").unwrap_or(word)
}

/// The first name declared by such lines that is one letter off this one, unless this one is declared.
fn near_name<'a>(declaring: &[&str], name: &[u8], lines: &'a [Line]) -> Option<&'a [u8]> {
    let mut near = None;
    for line in lines {
        let Some(declared) = name_in(declaring, line) else {
            continue;
        };
        if declared == name {
            return None;
        }
        if near.is_none() && is_near(name, declared) {
            near = Some(declared);
        }
    }
    near
}

/// The name that the line declares, if it begins with one of these words.
fn name_in<'a>(declaring: &[&str], line: &'a Line) -> Option<&'a [u8]> {
    let first = word_at(line.words(), 0);
    if declaring.iter().any(|word| word.as_bytes() == first) {
        Some(word_at(line.words(), 1))
    } else {
        None
    }
}

/// The word at this place, or no bytes if there is none.
pub(crate) fn word_at(words: &[Word], place: usize) -> &[u8] {
    match words.get(place) {
        Some(word) => word.as_bytes(),
        None => b"",
    }
}

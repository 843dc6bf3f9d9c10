//! Operands: the words after a command that are no options.
ghost use Rattle.std.specs.Prelude.{◌≡◌};
ghost use Rattle.lb_cli_words.specs.Words.{asks_help_within, exactly, operands_of, texts};
ghost use Rattle.lb_cli_words.specs.Given.{four_of, nothing_if, one_of, three_of, two_of};

use crate::word::{ends_options, is_help, is_operand, is_option};

/// Whether no word is left, except for one that ends the options.
pub(crate) fn is_end(words: &[&str]) -> bool
    ensures { nothing_if result ≡ operands_of 0 (texts words.now) }
{
    match words.split_first() {
        Some((word, rest)) => ends_options(word) && rest.is_empty(),
        None => true,
    }
}

/// The operand, where there is one.
pub(crate) fn one_operand<'a>(words: &[&'a str]) -> Option<&'a str>
    ensures { one_of result ≡ operands_of 1 (texts words.now) }
{
    let (word, rest) = words.split_first()?;
    if ends_options(word) {
        return one_word(rest);
    }
    (is_operand(word) && is_end(rest)).then_some(*word)
}

/// The two operands, where there are two.
pub(crate) fn two_operands<'a>(words: &[&'a str]) -> Option<(&'a str, &'a str)>
    ensures { two_of result ≡ operands_of 2 (texts words.now) }
{
    let (word, rest) = words.split_first()?;
    if ends_options(word) {
        return two_words(rest);
    }
    if is_option(word) {
        return None;
    }
    Some((*word, one_operand(rest)?))
}

/// The three operands, where there are three.
pub(crate) fn three_operands<'a>(words: &[&'a str]) -> Option<(&'a str, &'a str, &'a str)>
    ensures { three_of result ≡ operands_of 3 (texts words.now) }
{
    let (word, rest) = words.split_first()?;
    if ends_options(word) {
        return three_words(rest);
    }
    if is_option(word) {
        return None;
    }
    let (second, third) = two_operands(rest)?;
    Some((*word, second, third))
}

/// The four operands, where there are four.
pub(crate) fn four_operands<'a>(words: &[&'a str]) -> Option<(&'a str, &'a str, &'a str, &'a str)>
    ensures { four_of result ≡ operands_of 4 (texts words.now) }
{
    let (word, rest) = words.split_first()?;
    if ends_options(word) {
        return four_words(rest);
    }
    if is_option(word) {
        return None;
    }
    let (second, third, fourth) = three_operands(rest)?;
    Some((*word, second, third, fourth))
}

fn one_word<'a>(words: &[&'a str]) -> Option<&'a str>
    ensures { one_of result ≡ exactly 1 (texts words.now) }
{
    match words {
        [word] => Some(*word),
        _ => None,
    }
}

fn two_words<'a>(words: &[&'a str]) -> Option<(&'a str, &'a str)>
    ensures { two_of result ≡ exactly 2 (texts words.now) }
{
    match words {
        [first, second] => Some((*first, *second)),
        _ => None,
    }
}

fn three_words<'a>(words: &[&'a str]) -> Option<(&'a str, &'a str, &'a str)>
    ensures { three_of result ≡ exactly 3 (texts words.now) }
{
    match words {
        [first, second, third] => Some((*first, *second, *third)),
        _ => None,
    }
}

fn four_words<'a>(words: &[&'a str]) -> Option<(&'a str, &'a str, &'a str, &'a str)>
    ensures { four_of result ≡ exactly 4 (texts words.now) }
{
    match words {
        [first, second, third, fourth] => Some((*first, *second, *third, *fourth)),
        _ => None,
    }
}

/// Whether the first option asks for help, and at most this many operands stand before it.
pub(crate) fn asks_help_within(operands: u8, words: &[&str]) -> bool
    ensures { result ≡ asks_help_within operands (texts words.now) }
{
    let Some((word, rest)) = words.split_first() else {
        return false;
    };
    if ends_options(word) {
        return false;
    }
    if is_option(word) {
        return is_help(word);
    }
    operands > 0 && asks_help_within(operands - 1, rest)
}

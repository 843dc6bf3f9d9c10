//! The options of the commands' own.
ghost use Rattle.std.specs.Prelude.{◌≡◌, IfSome, IsSome, IsTrue, option_map};
ghost use Rattle.lb_cli_words.specs.Words.{asks_help_with, behind_operand, files_with, taken_out, texts};
ghost use Rattle.lb_cli_words.specs.Words.{flagged, lettered, named, value_apart, value_of};
ghost use Rattle.lb_cli_words.specs.Table.{has_value, reader_of};
ghost use Rattle.lb_cli_words.specs.Given.{files_of, given_of};

use crate::operands::{asks_help_within, is_end, one_operand};
use crate::word::{attached, behind_f, behind_hyphen, is_operand, name_and_value};

/// An option of a command's own.
#[derive(Clone, Copy, Debug, PartialEq, Eq)]
pub(crate) enum OwnOption {
    /// `-f FILE`, also as `-fFILE` and `-f=FILE`.
    File,
    /// `--sheet SHEET`, also as `--sheet=SHEET`.
    Sheet,
    /// `--table`.
    Table,
    /// `--pins PINS`, also as `--pins=PINS`.
    Pins,
    /// `--pins-every TIME`, also as `--pins-every=TIME`.
    PinsEvery,
}

/// An option that was read: its value, if it has one, and the words after it.
#[derive(Clone, Copy)]
pub(crate) struct Given<'a> {
    pub(crate) value: Option<&'a str>,
    pub(crate) rest: &'a [&'a str],
}

impl OwnOption {
    /// Reads the option at the front of the words.
    pub(crate) fn read<'a>(self, words: &'a [&'a str]) -> Option<Given<'a>>
        ensures read { given_of result ≡ reader_of self (texts words.now) }
        ensures valued { IsTrue (has_value self) → IfSome result (λ given. IsSome given.value) }
    {
        match self {
            OwnOption::File => file_option(words),
            OwnOption::Sheet => named_option("--sheet", words),
            OwnOption::Table => read_flag("--table", words),
            OwnOption::Pins => named_option("--pins", words),
            OwnOption::PinsEvery => named_option("--pins-every", words),
        }
    }
}

fn file_option<'a>(words: &'a [&'a str]) -> Option<Given<'a>>
    ensures read { given_of result ≡ lettered 102 (texts words.now) }
    ensures valued { IfSome result (λ given. IsSome given.value) }
{
    let (word, rest) = words.split_first()?;
    value_of(attached(behind_f(behind_hyphen(word)?)?), rest)
}

fn named_option<'a>(name: &str, words: &'a [&'a str]) -> Option<Given<'a>>
    ensures read { given_of result ≡ named name.now (texts words.now) }
    ensures valued { IfSome result (λ given. IsSome given.value) }
{
    let (word, rest) = words.split_first()?;
    let (found, value) = name_and_value(word);
    if found != name {
        return None;
    }
    value_of(value, rest)
}

/// Reads the option of this name, which has no value, at the front of the words.
pub(crate) fn read_flag<'a>(name: &str, words: &'a [&'a str]) -> Option<Given<'a>>
    ensures { given_of result ≡ flagged name.now (texts words.now) }
{
    let (word, rest) = words.split_first()?;
    (*word == name).then_some(Given { value: None, rest })
}

/// A value in the option's own word, or else the next word.
fn value_of<'a>(value: Option<&'a str>, rest: &'a [&'a str]) -> Option<Given<'a>>
    ensures read { given_of result ≡ value_of (option_map (λ v. v.now) value.entry) (texts rest.now) }
    ensures valued { IfSome result (λ given. IsSome given.value) }
{
    match value {
        Some(_) => Some(Given { value, rest }),
        None => value_apart(rest),
    }
}

fn value_apart<'a>(words: &'a [&'a str]) -> Option<Given<'a>>
    ensures read { given_of result ≡ value_apart (texts words.now) }
    ensures valued { IfSome result (λ given. IsSome given.value) }
{
    let (value, rest) = words.split_first()?;
    is_operand(value).then_some(Given {
        value: Some(*value),
        rest,
    })
}

impl OwnOption {
    /// The option's value and the one operand, where the words are these two in either order.
    pub(crate) fn files_with<'a>(self, words: &'a [&'a str]) -> Option<(Option<&'a str>, &'a str)>
        ensures files { files_of result ≡ files_with (taken_out (reader_of self)) 1 (texts words.now) }
        ensures valued { IsTrue (has_value self) → IfSome result (λ files. IsSome files.0) }
    {
        if let Some(given) = self.read(words) {
            return Some((given.value, one_operand(given.rest)?));
        }
        let (word, others) = words.split_first()?;
        if !is_operand(word) {
            return None;
        }
        let given = self.read(others)?;
        is_end(given.rest).then_some((given.value, *word))
    }

    /// Whether the words without the option ask for help, where one operand is due beside it.
    pub(crate) fn asks_help(self, words: &[&str]) -> bool
        ensures { result ≡ asks_help_with (taken_out (reader_of self)) 1 (texts words.now) }
    {
        match self.read(words) {
            Some(given) => asks_help_within(1, given.rest),
            None => self.asks_help_behind_operand(words),
        }
    }

    /// The same, where the operand stands first.
    fn asks_help_behind_operand(self, words: &[&str]) -> bool
        ensures { result ≡ asks_help_with (behind_operand (reader_of self)) 1 (texts words.now) }
    {
        match words.split_first() {
            Some((word, others)) if is_operand(word) => match self.read(others) {
                Some(given) => asks_help_within(0, given.rest),
                None => false,
            },
            _ => false,
        }
    }
}

//! The options of `run`: each at most once, in any order.
ghost use Rattle.std.specs.Prelude.{◌≡◌, option_map};
ghost use Rattle.lb_cli_words.specs.Words.{texts};
ghost use Rattle.lb_cli_words.specs.Table.{reader_of, row_of};
ghost use Rattle.lb_cli_words.specs.Given.{given_of, options_of, values_of};
ghost use Rattle.lb_cli_words.specs.RunWords.{further, new_value, options_in, row_of_options};

use crate::Job;
use crate::own_option::{Given, OwnOption};

/// The values of the options that stand at the front of words, and the words after them.
#[derive(Clone, Copy)]
pub(crate) struct RunOptions<'a> {
    pub(crate) file: Option<&'a str>,
    pub(crate) pins: Option<&'a str>,
    pub(crate) every: Option<&'a str>,
    pub(crate) rest: &'a [&'a str],
}

impl<'a> RunOptions<'a> {
    /// Reads all options at the front of the words.
    pub(crate) fn read(words: &'a [&'a str]) -> RunOptions<'a>
        ensures { options_of result ≡ options_in (texts words.now) }
    {
        let none = RunOptions {
            file: None,
            pins: None,
            every: None,
            rest: words,
        };
        none.further().further().further()
    }

    /// Reads one option more, if the next word is one that wasn't read yet.
    fn further(self) -> RunOptions<'a>
        ensures { options_of result ≡ further (options_of self.entry) }
    {
        let RunOptions {
            file,
            pins,
            every,
            rest,
        } = self;
        if let Some(Given { value, rest }) = new_value(file, OwnOption::File, rest) {
            return RunOptions {
                file: value,
                pins,
                every,
                rest,
            };
        }
        if let Some(Given { value, rest }) = new_value(pins, OwnOption::Pins, rest) {
            return RunOptions {
                file,
                pins: value,
                every,
                rest,
            };
        }
        match new_value(every, OwnOption::PinsEvery, rest) {
            Some(Given { value, rest }) => RunOptions {
                file,
                pins,
                every: value,
                rest,
            },
            None => self,
        }
    }

    /// The job that the options alone ask for.
    pub(crate) fn job(self) -> Option<Job<'a>>
        ensures { option_map row_of result ≡ row_of_options (options_of self.entry) }
    {
        let file = self.file?;
        match (self.pins, self.every) {
            (Some(pins), every) => Some(Job::RunWithPins { file, pins, every }),
            (None, None) => Some(Job::Run { file }),
            (None, Some(_)) => None,
        }
    }
}

/// The option at the front of the words, unless it has this value already.
fn new_value<'a>(
    value: Option<&'a str>,
    option: OwnOption,
    words: &'a [&'a str],
) -> Option<Given<'a>>
    ensures { given_of result ≡ new_value (values_of value.entry) (reader_of option) (texts words.now) }
{
    match value {
        Some(_) => None,
        None => option.read(words),
    }
}

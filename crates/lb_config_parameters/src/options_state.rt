ghost use Rattle.std.specs.Prelude.{◌≡◌};
ghost use Rattle.lb_config_arguments.specs.Faults.{Gives};
ghost use Rattle.lb_config_parameters.specs.Options.{allowed, said, no_options, with_parameter, option_word, options_end, options_at, parameter_of};
ghost use Rattle.lb_config_arguments.specs.Reading.{each_word};

use crate::{Parameter, ServerOptions};
use lb_config_arguments::{Fault, LineError, Words};

/// The parameters of a line as far as they were read.
#[derive(Clone, Copy, Debug)]
pub(crate) struct OptionsState {
    options: ServerOptions,
    /// The parameter whose value is due.
    due: Option<Parameter>,
}

impl OptionsState {
    /// The state in which no value is due.
    fn said(options: ServerOptions) -> Self
        ensures { result ≡ said options }
    {
        OptionsState { options, due: None }
    }

    /// The state after a parameter.
    fn with_parameter(options: ServerOptions, parameter: Parameter) -> Self
        ensures { result ≡ with_parameter options parameter }
    {
        let mut options = options;
        match parameter {
            Parameter::Check => options.is_checked = true,
            Parameter::Backup => options.is_backup = true,
            Parameter::Disabled => options.is_disabled = true,
            _ => {
                return OptionsState {
                    options,
                    due: Some(parameter),
                };
            }
        }
        OptionsState::said(options)
    }

    /// The state after the word.
    #[tactic(auto, unfolding(crate::specs::Options::option_word))]
    fn with_word(self, words: &Words, is_default: bool, word: &[u8]) -> Result<Self, LineError>
        ensures { Gives (λ state. state) result (option_word is_default self word.now) }
    {
        if let Some(parameter) = self.due {
            let options = self.options.with_value(parameter, word)?;
            return Ok(OptionsState::said(options));
        }
        let parameter = read_parameter(words, is_default, word)?;
        Ok(OptionsState::with_parameter(self.options, parameter))
    }

    /// The options at the line's end.
    #[tactic(auto, unfolding(crate::specs::Options::options_end))]
    fn end(self) -> Result<ServerOptions, Fault>
        ensures { result ≡ options_end self }
    {
        match self.due {
            Some(_) => Err(Fault::Missing),
            None => Ok(self.options),
        }
    }
}

/// The parameter that the word names, where it may stand.
fn read_parameter(words: &Words, is_default: bool, word: &[u8]) -> Result<Parameter, LineError>
    ensures { Gives (λ parameter. parameter) result (allowed is_default word.now (parameter_of word.now)) }
{
    if let Some(parameter) = Parameter::named(word) {
        if parameter.may_stand(is_default) {
            return Ok(parameter);
        }
    }
    Err(Fault::LeftOut(words.copied(word)?).into())
}

/// The parameters up to the line's end.
#[tactic(auto, unfolding(crate::specs::Options::options_at))]
pub(crate) fn read_options(words: &mut Words, is_default: bool) -> Result<ServerOptions, LineError>
    ensures { Gives (λ options. options) result (options_at is_default words.old) }
{
    Ok(read_state(words, is_default)?.end()?)
}

fn read_state(words: &mut Words, is_default: bool) -> Result<OptionsState, LineError>
    ensures { Gives (λ state. state) result (each_word (option_word is_default) (said no_options) words.old) }
{
    let mut state = OptionsState::said(ServerOptions::none());
    while let Some(word) = words.next_word_or_end()? {
        state = state.with_word(words, is_default, word)?;
    }
    Ok(state)
}

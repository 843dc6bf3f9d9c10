ghost use Rattle.std.specs.Prelude.{◌≡◌};
ghost use Rattle.lb_config_parameters.specs.Options.{parameter_of, may_stand};

use lb_config_arguments::is;

/// A parameter of a server.
#[derive(Clone, Copy, Debug, PartialEq, Eq)]
pub(crate) enum Parameter {
    Check,
    Backup,
    Disabled,
    Inter,
    Rise,
    Fall,
    Weight,
    MaxConnections,
    MaxPins,
}

impl Parameter {
    /// The parameter that the word names.
    #[tactic(auto, unfolding(crate::specs::Options::parameter_of))]
    pub(crate) fn named(word: &[u8]) -> Option<Parameter>
        ensures { result ≡ parameter_of word.now }
    {
        if is(word, b"check") {
            Some(Parameter::Check)
        } else if is(word, b"backup") {
            Some(Parameter::Backup)
        } else if is(word, b"disabled") {
            Some(Parameter::Disabled)
        } else if is(word, b"inter") {
            Some(Parameter::Inter)
        } else if is(word, b"rise") {
            Some(Parameter::Rise)
        } else if is(word, b"fall") {
            Some(Parameter::Fall)
        } else if is(word, b"weight") {
            Some(Parameter::Weight)
        } else if is(word, b"maxconn") {
            Some(Parameter::MaxConnections)
        } else if is(word, b"maxpins") {
            Some(Parameter::MaxPins)
        } else {
            None
        }
    }

    /// Whether a line `server` or `default-server` may have it.
    pub(crate) fn may_stand(self, is_default: bool) -> bool
        ensures { result ≡ may_stand is_default self }
    {
        match self {
            Parameter::Backup | Parameter::Disabled => !is_default,
            _ => true,
        }
    }
}

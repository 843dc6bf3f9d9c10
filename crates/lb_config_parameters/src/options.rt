ghost use Rattle.std.specs.Prelude.{◌≡◌};
ghost use Rattle.lb_config_parameters.specs.Options.{no_options, with_value};

use crate::Parameter;
use lb_config_arguments::{Fault, read_number, read_time};
use lb_types::{MAX_CONNECTIONS, MAX_PINS, MAX_WEIGHT};
use rise_fall::MAX_STREAK;
use std::marker::Model;

/// What a line `server` or `default-server` says of servers. `None` is what isn't said.
#[derive(Clone, Copy, Debug, PartialEq, Eq)]
pub struct ServerOptions {
    /// `check`.
    pub is_checked: bool,
    /// `backup`.
    pub is_backup: bool,
    /// `disabled`.
    pub is_disabled: bool,
    /// `inter`, in milliseconds.
    pub interval: Option<u32>,
    /// `rise`, 1 to 1000.
    pub rise: Option<u16>,
    /// `fall`, 1 to 1000.
    pub fall: Option<u16>,
    /// `weight`, 0 to 256.
    pub weight: Option<u16>,
    /// `maxconn`; 0 is no limit.
    pub max_connections: Option<u32>,
    /// `maxpins`, 0 to 16777216.
    pub max_pins: Option<u32>,
}

impl Model for ServerOptions {
    ghost use Rattle.lb_config_parameters.specs.OptionsView.{OptionsView, IsInRange};

    ghost Value = { OptionsView };

    ghost view = { λ options. record {
      is_checked = options.is_checked;
      is_backup = options.is_backup;
      is_disabled = options.is_disabled;
      interval = options.interval;
      rise = options.rise;
      fall = options.fall;
      weight = options.weight;
      max_connections = options.max_connections;
      max_pins = options.max_pins;
    } };

    ghost invariant = { λ options. IsInRange options.rise options.fall options.weight options.max_pins };

    ghost inverse = { λ options. record {
      is_checked = options.is_checked;
      is_backup = options.is_backup;
      is_disabled = options.is_disabled;
      interval = options.interval;
      rise = options.rise;
      fall = options.fall;
      weight = options.weight;
      max_connections = options.max_connections;
      max_pins = options.max_pins;
    } };
}

impl ServerOptions {
    /// Nothing is said.
    pub fn none() -> Self
        ensures { result ≡ no_options }
    {
        ServerOptions {
            is_checked: false,
            is_backup: false,
            is_disabled: false,
            interval: None,
            rise: None,
            fall: None,
            weight: None,
            max_connections: None,
            max_pins: None,
        }
    }

    /// These options with this value of the parameter.
    #[tactic(auto, unfolding(crate::specs::Options::with_value))]
    pub(crate) fn with_value(
        self,
        parameter: Parameter,
        word: &[u8],
    ) -> Result<ServerOptions, Fault>
        ensures { result ≡ with_value self parameter word.now }
    {
        let mut options = self;
        match parameter {
            Parameter::Inter => options.interval = Some(read_time(word)?),
            Parameter::Rise => options.rise = Some(read_number(1, MAX_STREAK, word)? as u16),
            Parameter::Fall => options.fall = Some(read_number(1, MAX_STREAK, word)? as u16),
            Parameter::Weight => options.weight = Some(read_number(0, MAX_WEIGHT, word)? as u16),
            Parameter::MaxConnections => {
                options.max_connections = Some(read_number(0, MAX_CONNECTIONS, word)? as u32);
            }
            Parameter::MaxPins => {
                options.max_pins = Some(read_number(0, MAX_PINS, word)? as u32);
            }
            Parameter::Check | Parameter::Backup | Parameter::Disabled => {}
        }
        Ok(options)
    }
}

ghost use Rattle.std.specs.Prelude.{◌≡◌, length, IfSome, All};
ghost use Rattle.std.specs.Option.{option_copied};
ghost use Rattle.lb_config_arguments.specs.Ranges.{IsFromTo};
ghost use Rattle.lb_config_limits.specs.declared.declarations.TheConstants.{MAX_BACKENDS};
ghost use Rattle.lb_config_lines.specs.declared.common_line.TheConstants.{MAX_RELAYS, MAX_TRIES};
ghost use Rattle.lb_config_valid.specs.Names.{AreNames};
ghost use Rattle.lb_config_valid.specs.Numbers.{IsSocket};
ghost use Rattle.lb_config.specs.Ranges.{HasBackRanges, HasFrontRanges};
ghost use Rattle.lb_config.specs.ValidConfigs.{LeadsWithin, WantsOwn, names_of};

use crate::{BackendConfig, Frontend};
use lb_config_lines::SocketAddress;
use lb_config_sections::Warning;
use std::marker::Model;

/// A configuration: its frontends and backends, what it says of the whole program, and the warnings of lines that are ignored.
#[derive(Debug, Drop)]
pub struct Config {
    pub(crate) relays: u8,
    pub(crate) tries: u16,
    pub(crate) socket: Option<SocketAddress>,
    pub(crate) frontends: Vec<Frontend>,
    pub(crate) backends: Vec<BackendConfig>,
    pub(crate) warnings: Vec<Warning>,
}

impl Model for Config {
    ghost use Rattle.lb_config.specs.ConfigViews.{ConfigView};
    ghost use Rattle.lb_config.specs.ValidConfigs.{IsConfig};

    ghost Value = { ConfigView };

    ghost view = { λ config. record {
      relays = config.relays;
      tries = config.tries;
      socket = config.socket;
      frontends = config.frontends.items;
      backends = config.backends.items;
      warnings = config.warnings.items;
    } };

    ghost invariant = { λ config. IsConfig (record {
      relays = config.relays;
      tries = config.tries;
      socket = config.socket;
      frontends = config.frontends.items;
      backends = config.backends.items;
      warnings = config.warnings.items;
    }) };
}

impl Config {
    /// How many relay workers there are, 1 to 64.
    pub fn relays(&self) -> u8
        ensures exact { result ≡ self.now.relays }
        ensures in_range { IsFromTo 1 MAX_RELAYS result }
    {
        self.relays
    }

    /// How often an evacuation is tried, 1 to 1000.
    pub fn tries(&self) -> u16
        ensures exact { result ≡ self.now.tries }
        ensures in_range { IsFromTo 1 MAX_TRIES result }
    {
        self.tries
    }

    /// Where the command socket listens, if there is one: a path, or an address with its port.
    pub fn socket(&self) -> Option<&SocketAddress>
        ensures exact { option_copied result ≡ self.now.socket }
        ensures in_range { IfSome self.now.socket IsSocket }
    {
        self.socket.as_ref()
    }

    /// The frontends, sections `listen` among them, in their order. Each request goes to a backend that exists, if to any.
    /// Their times are at most 2147483647 milliseconds, their ports 1 to 65535.
    pub fn frontends(&self) -> &[Frontend]
        ensures exact { result.now ≡ self.now.frontends }
        ensures ranges { All HasFrontRanges self.now.frontends }
        ensures leads { All (LeadsWithin (length self.now.backends)) self.now.frontends }
    {
        &self.frontends
    }

    /// The backends, sections `listen` among them, in their order: at most 64, with distinct names. The servers that their rules
    /// name exist. Their times, and those of their servers and tables, are at most 2147483647 milliseconds, the servers' ports 1 to
    /// 65535, and their journals of 1 to 1000000 entries.
    pub fn backends(&self) -> &[BackendConfig]
        ensures exact { result.now ≡ self.now.backends }
        ensures names { AreNames MAX_BACKENDS (names_of self.now.backends) }
        ensures ranges { All HasBackRanges self.now.backends }
        ensures wants { All WantsOwn self.now.backends }
    {
        &self.backends
    }

    /// The warnings, in the order of their lines.
    pub fn warnings(&self) -> &[Warning]
        ensures { result.now ≡ self.now.warnings }
    {
        &self.warnings
    }
}

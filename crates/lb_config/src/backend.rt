ghost use Rattle.std.specs.Prelude.{◌≡◌, IfSome, All};
ghost use Rattle.std.specs.Str.{bytes_eq};
ghost use Rattle.lb_config_arguments.specs.Ranges.{IsFromTo, IsTime};
ghost use Rattle.lb_config_lines.specs.declared.common_line.TheConstants.{MAX_JOURNAL};
ghost use Rattle.lb_config_parameters.specs.Ranges.{IsTable};
ghost use Rattle.lb_config.specs.Kept.{IsServers};
ghost use Rattle.lb_config.specs.Limits.{limit_of, queue_limit, probe_limit};
ghost use Rattle.lb_config.specs.Ranges.{HasServerRanges, IsLimit};

use lb_config_rules::BackRules;
use lb_config_values::{ServerConfig, Timeouts};
use lb_types::{Balance, Name};
use std::marker::Model;

/// A backend: what the configuration says of its servers, its pins and its requests.
#[derive(Debug, Drop)]
pub struct BackendConfig {
    pub(crate) name: Name,
    pub(crate) balance: Balance,
    pub(crate) all_backups: bool,
    pub(crate) evacuate: bool,
    pub(crate) forward_for: bool,
    pub(crate) timeouts: Timeouts,
    pub(crate) journal: u32,
    pub(crate) servers: Vec<ServerConfig>,
    pub(crate) rules: BackRules,
}

impl Model for BackendConfig {
    ghost use Rattle.lb_config.specs.ConfigViews.{BackendView};

    ghost Value = { BackendView };

    ghost view = { λ backend. record {
      name = backend.name;
      balance = backend.balance;
      all_backups = backend.all_backups;
      evacuate = backend.evacuate;
      forward_for = backend.forward_for;
      timeouts = backend.timeouts;
      journal = backend.journal;
      servers = backend.servers.items;
      rules = backend.rules;
    } };

    ghost use Rattle.lb_config.specs.ValidConfigs.{IsBackend};

    ghost invariant = { λ backend. IsBackend (record {
      name = backend.name;
      balance = backend.balance;
      all_backups = backend.all_backups;
      evacuate = backend.evacuate;
      forward_for = backend.forward_for;
      timeouts = backend.timeouts;
      journal = backend.journal;
      servers = backend.servers.items;
      rules = backend.rules;
    }) };
}

impl BackendConfig {
    /// The backend's name.
    pub fn name(&self) -> Name
        ensures { result ≡ self.now.name }
    {
        self.name
    }

    /// Whether it is the backend of this name.
    pub fn has_name(&self, name: &Name) -> bool
        ensures { result ≡ bytes_eq self.now.name name.now }
    {
        self.name.as_bytes() == name.as_bytes()
    }

    /// How a server is picked for a request that wants none.
    pub fn balance(&self) -> Balance
        ensures { result ≡ self.now.balance }
    {
        self.balance
    }

    /// Whether all backups are usable together where no other server is, and not the first one alone.
    pub fn all_backups(&self) -> bool
        ensures { result ≡ self.now.all_backups }
    {
        self.all_backups
    }

    /// Whether pins are moved off servers that are no longer usable.
    pub fn evacuate(&self) -> bool
        ensures { result ≡ self.now.evacuate }
    {
        self.evacuate
    }

    /// Whether the client's address is sent to the servers.
    pub fn forward_for(&self) -> bool
        ensures { result ≡ self.now.forward_for }
    {
        self.forward_for
    }

    /// How many entries its journal keeps, 1 to 1000000.
    pub fn journal(&self) -> u32
        ensures exact { result ≡ self.now.journal }
        ensures in_range { IsFromTo 1 MAX_JOURNAL result }
    {
        self.journal
    }

    /// The servers, in their order: at most 128, with distinct names. Their ports, which their checks use too, are 1 to 65535, and
    /// between two checks stand at most 2147483647 milliseconds.
    pub fn servers(&self) -> &[ServerConfig]
        ensures exact { result.now ≡ self.now.servers }
        ensures lawful { IsServers self.now.servers }
        ensures ranges { All HasServerRanges self.now.servers }
    {
        &self.servers
    }

    /// The table, the key of its pins, and the rules on servers and costs. The table has 1 to 16777216 places and keys of 1 to 1024
    /// bytes, and its pins go after at most 2147483647 milliseconds.
    pub fn rules(&self) -> &BackRules
        ensures exact { result.now ≡ self.now.rules }
        ensures table { IfSome self.now.rules.table IsTable }
    {
        &self.rules
    }

    /// How many milliseconds a dial may take, 1 to 2147483647, if there is a limit.
    pub fn connect_limit(&self) -> Option<u32>
        ensures exact { result ≡ limit_of self.now.timeouts.connect }
        ensures in_range { IfSome result IsLimit }
    {
        limit_of(self.timeouts.connect)
    }

    /// How many milliseconds one read from a server may take, 1 to 2147483647, if there is a limit.
    pub fn server_limit(&self) -> Option<u32>
        ensures exact { result ≡ limit_of self.now.timeouts.server }
        ensures in_range { IfSome result IsLimit }
    {
        limit_of(self.timeouts.server)
    }

    /// How many milliseconds a request waits for a connection, at most 2147483647, if there is a limit. With 0 it doesn't wait.
    pub fn queue_limit(&self) -> Option<u32>
        ensures exact { result ≡ queue_limit self.now.timeouts }
        ensures in_range { IfSome result IsTime }
    {
        match self.timeouts.queue {
            Some(millis) => Some(millis),
            None => limit_of(self.timeouts.connect),
        }
    }

    /// How many milliseconds one whole check of the server may take, if there is a limit. It is 1 to 2147483647 if the server's
    /// `inter` is a time, as that of each server of the backend is.
    pub fn probe_limit(&self, server: &ServerConfig) -> Option<u32>
        ensures exact { result ≡ probe_limit self.now.timeouts server.now.interval }
        ensures in_range { IsTime server.now.interval → IfSome result IsLimit }
    {
        match limit_of(self.timeouts.check) {
            Some(millis) => Some(millis),
            None => limit_of(Some(server.interval())),
        }
    }
}

/// The limit of a time: none where it isn't said, or is 0.
#[tactic(auto, using(crate::proofs::LimitsInRange::limit_ok))]
pub(crate) fn limit_of(time: Option<u32>) -> Option<u32>
    ensures exact { result ≡ limit_of time }
    ensures in_range { IfSome time IsTime → IfSome result IsLimit }
{
    match time {
        Some(0) => None,
        time => time,
    }
}

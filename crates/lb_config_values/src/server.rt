ghost use Rattle.std.specs.Prelude.{◌≡◌, ◌≤◌, IfOk, unwrap_or};
ghost use Rattle.lb_types.specs.declared.limits.TheConstants.{MAX_PINS};
ghost use Rattle.lb_config_values.specs.Servers.{admin_of, settings_of, server_of};
ghost use Rattle.lb_config_values.specs.ServerView.{settings_view};

use crate::SharedCheck;
use check_workers_rule::CheckRule;
use lb_config_arguments::Endpoint;
use lb_config_parameters::{ServerLine, ServerOptions};
use lb_types::Name;
use server_state::{AdminState, CheckSettings, ServerSettings};
use std::alloc::{AllocError, Global};
use std::marker::Model;

/// A server of a backend, as it is configured.
#[derive(Debug, Drop)]
pub struct ServerConfig {
    name: Name,
    endpoint: Endpoint,
    settings: ServerSettings,
    interval: u32,
    check: CheckRule,
}

impl Model for ServerConfig {
    ghost use Rattle.lb_config_values.specs.ServerView.{ServerView, settings_view};

    ghost Value = { ServerView };

    ghost view = { λ server. record {
      name = server.name;
      endpoint = server.endpoint;
      settings = settings_view server.settings;
      interval = server.interval;
      check_request = server.check;
    } };
}

impl ServerConfig {
    /// The server of a line, of which `options` say what the line and the `default-server` lines before it say. It may hold
    /// `max_pins` pins if no `maxpins` is given. The only error is out of memory.
    pub(crate) fn of(
        alloc: Global,
        max_pins: u32,
        check: &SharedCheck,
        options: ServerOptions,
        line: &ServerLine,
    ) -> Result<Self, AllocError>
        requires { max_pins ≤ MAX_PINS }
        ensures { IfOk result (λ server. server ≡ server_of max_pins check.now options line.now) }
    {
        Ok(ServerConfig {
            name: line.name,
            endpoint: line.endpoint,
            settings: settings_of(max_pins, options),
            interval: options.interval.unwrap_or(2000),
            check: check.rule_at(alloc, line.endpoint)?,
        })
    }

    /// The server's name.
    pub fn name(&self) -> Name
        ensures { result ≡ self.now.name }
    {
        self.name
    }

    /// Where it is reached.
    pub fn endpoint(&self) -> Endpoint
        ensures { result ≡ self.now.endpoint }
    {
        self.endpoint
    }

    /// What commands may change, and how its checks count.
    pub fn settings(&self) -> ServerSettings
        ensures { settings_view result ≡ self.now.settings }
    {
        self.settings
    }

    /// `inter`: how many milliseconds stand between two checks; 2000 where it isn't said.
    pub fn interval(&self) -> u32
        ensures { result ≡ self.now.interval }
    {
        self.interval
    }

    /// What a check of it sends.
    pub fn check_rule(&self) -> &CheckRule
        ensures { result.now ≡ self.now.check_request }
    {
        &self.check
    }
}

/// The settings at the start: what is said, else a weight of 1, no limit of connections, and `rise` 2 and `fall` 3.
fn settings_of(max_pins: u32, options: ServerOptions) -> ServerSettings
    requires { max_pins ≤ MAX_PINS }
    ensures { settings_view result ≡ settings_of max_pins options }
{
    let check = CheckSettings {
        rise: options.rise.unwrap_or(2),
        fall: options.fall.unwrap_or(3),
    };
    ServerSettings {
        admin: admin_of(options.is_disabled),
        weight: options.weight.unwrap_or(1),
        max_connections: options.max_connections.unwrap_or(0),
        max_pins: options.max_pins.unwrap_or(max_pins),
        backup: options.is_backup,
        check: if options.is_checked {
            Some(check)
        } else {
            None
        },
    }
}

fn admin_of(is_disabled: bool) -> AdminState
    ensures { result ≡ admin_of is_disabled }
{
    if is_disabled {
        AdminState::Maint
    } else {
        AdminState::Ready
    }
}

ghost use Rattle.std.specs.Prelude.{◌≡◌, ◌≤◌, ◌++◌, IfOk, OnOk};
ghost use Rattle.std.specs.Option.{option_to_list};
ghost use Rattle.lb_types.specs.declared.limits.TheConstants.{MAX_PINS};
ghost use Rattle.lb_config_parameters.specs.Options.{no_options};
ghost use Rattle.lb_config_values.specs.Servers.{default_options, server_in, servers_behind};

use crate::server_options::{options_over, with_default};
use crate::{ServerConfig, SharedCheck};
use lb_config_lines::Setting;
use lb_config_parameters::ServerOptions;
use lb_config_sections::NumberedSetting;
use std::alloc::{AllocError, Global};

/// What the `default-server` lines of a `defaults` section say of the servers after it.
pub(crate) fn default_options(settings: &[NumberedSetting]) -> ServerOptions
    ensures { result ≡ default_options no_options settings.now }
{
    let mut defaults = ServerOptions::none();
    for numbered in settings {
        defaults = with_default(defaults, &numbered.setting);
    }
    defaults
}

/// The servers of a section, in their order. `defaults` is what is said of servers before the section, `max_pins` how many pins
/// a server without `maxpins` may hold, and `check` what checks send. The only error is out of memory.
pub fn read_servers(
    alloc: Global,
    max_pins: u32,
    check: &SharedCheck,
    defaults: ServerOptions,
    settings: &[NumberedSetting],
) -> Result<Vec<ServerConfig>, AllocError>
    requires { max_pins ≤ MAX_PINS }
    ensures { IfOk result (λ servers. servers.items ≡ servers_behind max_pins check.now defaults settings.now) }
{
    let mut servers = Vec::new(alloc);
    let mut options = defaults;
    for numbered in settings {
        let setting = &numbered.setting;
        push_server(alloc, max_pins, check, options, setting, &mut servers)?;
        options = with_default(options, setting);
    }
    Ok(servers)
}

/// Appends the server to the others, if the setting is one.
fn push_server(
    alloc: Global,
    max_pins: u32,
    check: &SharedCheck,
    options: ServerOptions,
    setting: &Setting,
    servers: &mut Vec<ServerConfig>,
) -> Result<(), AllocError>
    requires { max_pins ≤ MAX_PINS }
    ensures { OnOk result (servers.new.items ≡ servers.old.items ++ option_to_list (server_in max_pins check.now options setting.now)) }
{
    if let Setting::Server(line) = setting {
        let options = options_over(options, line.options);
        let server = ServerConfig::of(alloc, max_pins, check, options, line)?;
        servers.push(server)?;
    }
    Ok(())
}

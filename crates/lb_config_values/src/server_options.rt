ghost use Rattle.std.specs.Prelude.{◌≡◌};
ghost use Rattle.lb_config_values.specs.Servers.{options_over, with_default};

use lb_config_lines::Setting;
use lb_config_parameters::ServerOptions;

/// What `own` says, and where it says nothing what `defaults` say.
pub(crate) fn options_over(defaults: ServerOptions, own: ServerOptions) -> ServerOptions
    ensures { result ≡ options_over defaults own }
{
    ServerOptions {
        is_checked: own.is_checked || defaults.is_checked,
        is_backup: own.is_backup || defaults.is_backup,
        is_disabled: own.is_disabled || defaults.is_disabled,
        interval: own.interval.or(defaults.interval),
        rise: own.rise.or(defaults.rise),
        fall: own.fall.or(defaults.fall),
        weight: own.weight.or(defaults.weight),
        max_connections: own.max_connections.or(defaults.max_connections),
        max_pins: own.max_pins.or(defaults.max_pins),
    }
}

/// What is said of the servers after the setting.
pub(crate) fn with_default(defaults: ServerOptions, setting: &Setting) -> ServerOptions
    ensures { result ≡ with_default defaults setting.now }
{
    match setting {
        Setting::DefaultServer(options) => options_over(defaults, *options),
        _ => defaults,
    }
}

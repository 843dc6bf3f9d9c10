ghost use Rattle.std.specs.Prelude.{◌≡◌, ◌≤◌, IfOk};
ghost use Rattle.std.specs.Option.{ForSome, option_or};
ghost use Rattle.lb_types.specs.declared.limits.TheConstants.{MAX_PINS};
ghost use Rattle.lb_config.specs.Kept.{IsServers};
ghost use Rattle.lb_config.specs.SaidInRange.{AreDefaults, HaveNumbers};
ghost use Rattle.lb_config.specs.Configs.{backend_of, frontend_of, max_pins_of, optional_place, servers_of, size_in, values_of};

use crate::kept::kept_servers;
use crate::names::server_names;
use crate::{BackendConfig, Frontend};
use lb_config_lines::Setting;
use lb_config_rules::{place_of, read_rules};
use lb_config_sections::NumberedSetting;
use lb_config_values::{Defaults, ProxyValues, ServerConfig, read_servers};
use lb_types::Name;
use std::alloc::{AllocError, Global};
use std::marker::Model;

/// What every section is read by.
#[derive(Drop)]
pub(crate) struct Basis {
    /// The names of all backends, in their order.
    pub(crate) backends: Vec<Name>,
    /// How many entries a journal keeps, 1 to 1000000.
    pub(crate) journal: u32,
}

impl Model for Basis {
    ghost use Rattle.lb_config_arguments.specs.Ranges.{IsFromTo};
    ghost use Rattle.lb_config_lines.specs.declared.common_line.TheConstants.{MAX_JOURNAL};
    ghost use Rattle.lb_config.specs.BasisView.{BasisView};

    ghost Value = { BasisView };

    ghost view = { λ basis. record { backends = basis.backends.items; journal = basis.journal } };

    ghost invariant = { λ basis. IsFromTo 1 MAX_JOURNAL basis.journal };
}

/// A section as the frontend that it is, and as the backend.
pub(crate) fn read_proxy(
    alloc: Global,
    basis: &Basis,
    defaults: &Defaults,
    own: Option<usize>,
    name: Name,
    settings: Vec<NumberedSetting>,
) -> Result<(Frontend, BackendConfig), AllocError>
    requires defaults { AreDefaults defaults.now }
    requires settings { HaveNumbers settings.items }
    ensures front { IfOk result (λ two. two.0 ≡ frontend_of basis.now defaults.now own name settings.items) }
    ensures back { IfOk result (λ two. two.1 ≡ backend_of basis.now defaults.now name settings.items) }
{
    let values = values_of(defaults, &settings);
    let servers = servers_of(alloc, defaults, &settings)?;
    let names = server_names(alloc, &servers)?;
    let (front, back) = read_rules(alloc, &basis.backends, &names, settings)?;
    let frontend = Frontend {
        name,
        forward_for: values.forward_for,
        client_time: values.timeouts.client,
        default_backend: optional_place(&basis.backends, values.default_backend).or(own),
        rules: front,
    };
    let backend = BackendConfig {
        name,
        balance: values.picking(),
        all_backups: values.all_backups,
        evacuate: values.evacuate,
        forward_for: values.forward_for,
        timeouts: values.timeouts,
        journal: basis.journal,
        servers,
        rules: back,
    };
    Ok((frontend, backend))
}

/// What the section says of single values, else the `defaults` before it.
fn values_of(defaults: &Defaults, settings: &[NumberedSetting]) -> ProxyValues
    ensures { result ≡ values_of defaults.now settings.now }
{
    defaults.values.behind(settings)
}

/// The servers of the section.
fn servers_of(
    alloc: Global,
    defaults: &Defaults,
    settings: &[NumberedSetting],
) -> Result<Vec<ServerConfig>, AllocError>
    ensures exact { IfOk result (λ servers. servers.items ≡ servers_of defaults.now settings.now) }
    ensures lawful { IfOk result (λ servers. IsServers servers.items) }
{
    let check = defaults.check.behind(alloc, settings)?;
    let max_pins = max_pins_of(settings);
    kept_servers(
        alloc,
        read_servers(alloc, max_pins, &check, defaults.servers, settings)?,
    )
}

/// The size of the section's table, or 0.
fn max_pins_of(settings: &[NumberedSetting]) -> u32
    ensures exact { result ≡ max_pins_of settings.now }
    ensures within { result ≤ MAX_PINS }
{
    let mut size = None;
    for numbered in settings {
        size = later_size(size, &numbered.setting);
    }
    size.unwrap_or(0)
}

/// The size of the table that the setting is, or the size before it.
fn later_size(size: Option<u32>, setting: &Setting) -> Option<u32>
    requires { ForSome size (λ number. number ≤ MAX_PINS) }
    ensures exact { result ≡ option_or (size_in setting.now) size }
    ensures within { ForSome result (λ number. number ≤ MAX_PINS) }
{
    match setting {
        Setting::StickTable(table) => Some(table.settings().size),
        _ => size,
    }
}

/// The place of the backend of this name, if one is named.
fn optional_place(backends: &[Name], name: Option<Name>) -> Option<usize>
    ensures { result ≡ optional_place backends.now name }
{
    place_of(backends, &name?)
}

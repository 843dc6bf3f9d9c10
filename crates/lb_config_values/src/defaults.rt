ghost use Rattle.std.specs.Prelude.{◌≡◌, IfOk};
ghost use Rattle.lb_config_values.specs.DefaultsLines.{defaults_of, no_defaults};

use crate::servers::default_options;
use crate::{ProxyValues, SharedCheck};
use lb_config_parameters::ServerOptions;
use lb_config_sections::NumberedSetting;
use std::alloc::{AllocError, Global};

/// What a `defaults` section says of the sections after it.
#[derive(Debug, Drop)]
pub struct Defaults {
    /// The single values.
    pub values: ProxyValues,
    /// What its `default-server` lines say together.
    pub servers: ServerOptions,
    /// Its `option httpchk`.
    pub check: SharedCheck,
}

impl Defaults {
    /// Nothing is said.
    pub fn none() -> Self
        ensures { result ≡ no_defaults }
    {
        Defaults {
            values: ProxyValues::none(),
            servers: ServerOptions::none(),
            check: SharedCheck::none(),
        }
    }

    /// What a `defaults` section of these settings says. The only error is out of memory.
    pub fn of(alloc: Global, settings: &[NumberedSetting]) -> Result<Self, AllocError>
        ensures { IfOk result (λ defaults. defaults ≡ defaults_of settings.now) }
    {
        Ok(Defaults {
            values: ProxyValues::none().behind(settings),
            servers: default_options(settings),
            check: SharedCheck::none().behind(alloc, settings)?,
        })
    }
}

ghost use Rattle.std.specs.Prelude.{◌≡◌, option_map};
ghost use Rattle.std.specs.Option.{option_copied};
ghost use Rattle.lb_replay.specs.Farms.{named_table, table_of};

use lb_answers::{NamedBackend, NamedTable};
use lb_config::{BackendConfig, Config};
use lb_desk_model::Backend;
use std::marker::Model;

/// Whom a script is for: the one backend of a configuration that has servers.
#[derive(Debug, Drop)]
pub(crate) struct Farm<'a> {
    pub(crate) config: &'a Config,
    /// The backend's place among the configuration's.
    pub(crate) place: usize,
    /// The backend as it is configured.
    pub(crate) own: &'a BackendConfig,
    /// And as it opens.
    pub(crate) backend: &'a Backend,
}

impl<'a> Model for Farm<'a> {
    ghost use Rattle.lb_replay.specs.Farms.{FarmView};

    ghost Value = { FarmView };

    ghost view = { λ f. record { config = f.config.now; place = f.place; own = f.own.now; backend = f.backend.now } };
}

impl<'a> Farm<'a> {
    /// The backend, as answers name it.
    pub(crate) fn named(&self) -> NamedBackend<'a>
        ensures name { result.name ≡ self.now.own.name }
        ensures servers { result.servers.now ≡ self.now.backend.servers }
        ensures table { result.table ≡ table_of self.now.own }
    {
        NamedBackend {
            name: self.own.name(),
            servers: self.backend.servers(),
            table: table_of(self.own),
        }
    }
}

/// The table of a backend, if it has one.
pub(crate) fn table_of(backend: &BackendConfig) -> Option<NamedTable>
    ensures { result ≡ table_of backend.now }
{
    let table = backend.rules().table()?;
    Some(NamedTable {
        key_type: table.kind(),
        size: table.settings().size,
    })
}

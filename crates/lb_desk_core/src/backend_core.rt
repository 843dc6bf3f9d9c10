ghost use Rattle.std.specs.Prelude.{◌≡◌, IfOk, map};
ghost use Rattle.std.specs.Option.{ForSome};
ghost use Rattle.lb_desk_model.specs.Seen.{seen};
ghost use Rattle.lb_desk_model.specs.States.{opening};

use crate::parts::Parts;
use lb_desk_model::{Backend, BackendServer};
use lb_desk_servers::{Opening, open_servers};
use lb_types::{Moment, Name, TableSettings};
use pin_table::Table;
use std::alloc::{AllocError, Global};
use std::hash::BuildHasher;
use std::marker::Model;

/// One backend: its servers, its table of pins, and where its balance stands.
#[derive(Drop)]
pub struct Core<S: BuildHasher> {
    pub(crate) parts: Parts<S>,
}

impl<S: BuildHasher> Model for Core<S> {
    ghost use Rattle.lb_desk_core.specs.Core.{CoreView, IsReached};

    ghost Value = { CoreView };

    ghost view = { λ c. c.parts };

    ghost invariant = { λ c. IsReached c.parts.shown };
}

impl<S: BuildHasher + Drop> Core<S> {
    /// The backend at its opening: no pin, no connection, no result of a check, version 0.
    ///
    /// It allocates memory for the servers, and none for pins yet. The only error is out of memory.
    pub fn open(alloc: Global, backend: &Backend, hasher: S) -> Result<Self, AllocError>
        ensures shown { IfOk result (λ core. core.shown ≡ seen (opening backend.now)) }
        ensures uses { IfOk result (λ core. core.uses ≡ 0) }
    {
        let settings = backend.table();
        let names = names_of(alloc, backend.servers())?;
        let Opening { farm, book } = open_servers(alloc, backend)?;
        let table = Table::new(alloc, settings_of(settings), hasher);
        let parts = Parts {
            balance: backend.balance(),
            settings,
            names,
            farm,
            book,
            table,
            cursor: None,
            latest: Moment::from_millis(0),
        };
        Ok(Core { parts })
    }
}

fn names_of(alloc: Global, servers: &[BackendServer]) -> Result<Vec<Name>, AllocError>
    ensures { IfOk result (λ names. names.items ≡ map (λ s. s.name) servers.now) }
{
    servers.iter().map(|server| server.name).collect(alloc)
}

/// How the table is set: one that nobody looks into where the backend has none.
fn settings_of(settings: Option<TableSettings>) -> TableSettings
    ensures { ForSome settings (λ t. (result.size ≡ t.size) × (result.no_purge ≡ t.no_purge)) }
{
    settings.unwrap_or(TableSettings {
        size: 1,
        expire: None,
        no_purge: true,
    })
}

ghost use Rattle.std.specs.Prelude.{◌≡◌, [], IfOk};
ghost use Rattle.lb_run_desks.specs.NewDesks.{Open, OpensAs};

use lb_config::BackendConfig;
use lb_desk_backend::backend_of;
use lb_desk_model::{Backend, Entry};
use lb_desk_shared::{Naming, SharedDesk};
use lb_desk_step::Desk;
use lb_desk_tie::Opened;
use std::alloc::{AllocError, Global};
use std::hash::{BuildHasher, RandomState};
use std::marker::Model;

/// The desk of a backend at its opening, with a table for receipts, which nobody uses yet. Contracts see the table, the
/// backend and the size of the journal.
#[derive(Drop)]
pub struct NewDesk<S: BuildHasher> {
    table: Opened<Entry>,
    backend: Backend,
    desk: Desk<S>,
}

impl<S: BuildHasher> Model for NewDesk<S> {
    ghost use Rattle.std.specs.Prelude.{[]};
    ghost use Rattle.lb_desk_step.specs.Desk.{StandsAt};
    ghost use Rattle.lb_run_desks.specs.NewDeskView.{NewDeskView};

    ghost Value = { NewDeskView };

    ghost view = { λ d. record { table = d.table; backend = d.backend; journal = d.desk.journal.capacity } };

    ghost invariant = { λ d. StandsAt d.backend [] d.desk };
}

impl<S: BuildHasher + Drop> NewDesk<S> {
    /// Opens the backend. Its journal takes its memory here, whole. The only error is out of memory.
    pub fn open(alloc: Global, config: &BackendConfig, hasher: S) -> Result<Self, AllocError>
        ensures { IfOk result (OpensAs config.now) }
    {
        let table = Opened::new(alloc)?;
        let backend = backend_of(alloc, config)?;
        let desk = Desk::open(alloc, &backend, config.journal(), hasher)?;
        Ok(NewDesk {
            table,
            backend,
            desk,
        })
    }
}

impl<S: BuildHasher> NewDesk<S> {
    /// The desk for many threads, under this number.
    pub(crate) fn named<B: Naming>(self, number: u64) -> SharedDesk<S, B>
        requires table { self.table ≡ B.table_of number }
        requires opening { self.backend ≡ B.opening number }
        requires size { self.journal ≡ B.journal_size number }
        ensures { result ≡ number }
    {
        let NewDesk {
            table,
            backend: _,
            desk,
        } = self;
        SharedDesk::of(table, number, desk)
    }
}

/// Opens each of the backends, in their order. All desks find their pins by one hasher. The only error is out of memory.
pub fn new_desks(
    alloc: Global,
    backends: &[BackendConfig],
    hasher: RandomState,
) -> Result<Vec<NewDesk<RandomState>>, AllocError>
    ensures { IfOk result (λ desks. Open backends.now desks.items) }
{
    let mut desks = Vec::with_capacity(alloc, backends.len())?;
    for config in backends {
        desks.push(NewDesk::open(alloc, config, hasher)?)?;
    }
    Ok(desks)
}

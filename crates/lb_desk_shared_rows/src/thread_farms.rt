//! The backend that threads share, and desks for it.
ghost use Rattle.std.specs.Prelude.{◌≡◌, Ok, IfOk};
ghost use Rattle.lb_types.specs.Names.{name_of};

use crate::desks::JOURNAL;
use lb_desk_model::{Backend, BackendServer, Entry};
use lb_desk_shared::{Naming, SharedDesk};
use lb_desk_step::Desk;
use lb_desk_tie::Opened;
use lb_types::{Balance, Name, TableSettings};
use server_state::{AdminState, ServerSettings};
use std::alloc::Global;
use std::hash::{BuildHasherDefault, FoldHasher};
use std::test::Fail;

pub(crate) type Hasher = BuildHasherDefault<FoldHasher>;

/// A server that is ready, isn't checked, and has room for five pins.
const READY: ServerSettings = ServerSettings {
    admin: AdminState::Ready,
    weight: 1,
    max_connections: 0,
    max_pins: 5,
    backup: false,
    check: None,
};

/// A backend of servers a and b, with a table of ten pins.
pub(crate) fn farm(alloc: Global) -> Result<Backend, Fail> {
    let a = named(b"a")?;
    let b = named(b"b")?;
    let servers = vec![in alloc; a, b]?;
    let table = TableSettings {
        size: 10,
        expire: None,
        no_purge: false,
    };
    Ok(Backend::new(Balance::RoundRobin, false, Some(table), servers))
}

fn named(name: &[u8]) -> Result<BackendServer, Fail>
    ensures { IfOk result (λ server. name_of name.now ≡ Ok server.name) }
{
    let name = Name::read(name)?;
    Ok(BackendServer {
        name,
        settings: READY,
    })
}

/// The desk of this number.
pub(crate) fn desk_of<B: Naming>(
    alloc: Global,
    opened: Opened<Entry>,
    number: u64,
    backend: &Backend,
) -> Result<SharedDesk<Hasher, B>, Fail>
    requires table { opened ≡ B.table_of number }
    requires opening { B.opening number ≡ backend.now }
    requires size { B.journal_size number ≡ JOURNAL }
    ensures { IfOk result (λ desk. desk ≡ number) }
{
    let hasher = BuildHasherDefault::<FoldHasher>::new();
    let desk = Desk::open(alloc, backend, JOURNAL, hasher)?;
    Ok(SharedDesk::of(opened, number, desk))
}

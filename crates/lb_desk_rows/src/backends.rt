//! The backend of the tests, which gives its parts back.
ghost use Rattle.std.specs.Prelude.{◌≡◌, Ok, IfOk};
ghost use Rattle.lb_types.specs.Names.{name_of};

use lb_desk_model::{Backend, BackendServer};
use lb_types::{Balance, Name, TableSettings};
use server_state::{AdminState, CheckSettings, ServerSettings};
use std::alloc::Global;
use std::test::Fail;

/// Servers `a` and `b`, each for five pins and checked with two successes and three failures, and a table of ten pins.
pub(crate) fn two(alloc: Global) -> Result<Backend, Fail> {
    let a = named(b"a")?;
    let b = named(b"b")?;
    let servers = vec![in alloc; a, b]?;
    Ok(Backend::new(Balance::LeastConnections, true, Some(table()), servers))
}

fn table() -> TableSettings {
    TableSettings {
        size: 10,
        expire: None,
        no_purge: true,
    }
}

fn named(name: &[u8]) -> Result<BackendServer, Fail>
    ensures { IfOk result (λ server. name_of name.now ≡ Ok server.name) }
{
    let name = Name::read(name)?;
    let settings = ServerSettings {
        admin: AdminState::Ready,
        weight: 1,
        max_connections: 0,
        max_pins: 5,
        backup: false,
        check: Some(CheckSettings { rise: 2, fall: 3 }),
    };
    Ok(BackendServer { name, settings })
}

#[test]
fn a_backend_gives_its_parts_back(rt: HostRuntime) -> Result<(), Fail> {
    let backend = two(rt.alloc())?;
    assert_eq!(rt; backend.balance(), Balance::LeastConnections);
    assert!(rt; backend.all_backups() && backend.table() == Some(table()));
    assert_eq!(rt; backend.servers().len(), 2);
    for (server, name) in backend.servers().iter().zip([b"a", b"b"]) {
        assert!(rt; server.name.as_bytes() == name.as_slice());
    }
    Ok(())
}

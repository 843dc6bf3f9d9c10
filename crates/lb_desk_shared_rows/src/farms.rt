//! The backend of seats: servers a and b, and a table of ten pins.
ghost use Rattle.std.specs.Prelude.{◌≡◌, Ok, IfOk};
ghost use Rattle.lb_types.specs.Names.{name_of};

use lb_desk_model::{Backend, BackendServer, Request, RuleList, SetPin};
use lb_types::{Balance, Moment, Name, ServerId, ServerSet, TableSettings};
use pin_set::{KeyText, PinId, PinKey};
use server_state::{AdminState, CheckSettings, ServerSettings};
use std::alloc::{AllocError, Global};
use std::test::Fail;

pub(crate) const A: u8 = 0;

pub(crate) const B: u8 = 1;

pub(crate) fn server(at: u8) -> ServerId {
    ServerId::new(at % 128)
}

/// Servers a and b, which serve in turn: a for five pins, checked with two successes and three failures, and b for as many, with one
/// connection and no checks.
pub(crate) fn two_servers(alloc: Global) -> Result<Backend, Fail> {
    let checked = Some(CheckSettings { rise: 2, fall: 3 });
    let a = named(b"a", 0, checked)?;
    let b = named(b"b", 1, None)?;
    let servers = vec![in alloc; a, b]?;
    let table = table();
    Ok(Backend::new(Balance::RoundRobin, false, table, servers))
}

/// A table of ten pins, none of which expires.
fn table() -> Option<TableSettings> {
    Some(TableSettings {
        size: 10,
        expire: None,
        no_purge: false,
    })
}

fn named(
    name: &[u8],
    max_connections: u32,
    check: Option<CheckSettings>,
) -> Result<BackendServer, Fail>
    ensures { IfOk result (λ server. name_of name.now ≡ Ok server.name) }
{
    let name = Name::read(name)?;
    Ok(BackendServer {
        name,
        settings: ServerSettings {
            admin: AdminState::Ready,
            weight: 1,
            max_connections,
            max_pins: 5,
            backup: false,
            check,
        },
    })
}

/// A request with this key that no rule matches, whose pin costs 1 to move.
pub(crate) fn request(
    alloc: Global,
    moment: u64,
    key: &'static str,
) -> Result<Request, AllocError> {
    let key = KeyText::copied_from(alloc, key.as_bytes())?;
    Ok(Request {
        key: Some(PinKey::Text(key)),
        rules: RuleList::new(Vec::new(alloc)),
        cost: 1,
        moment: Moment::from_millis(moment),
    })
}

/// The pin of such a request, which is to stand at this server.
pub(crate) fn pin(
    alloc: Global,
    moment: u64,
    key: &'static str,
    at: u8,
) -> Result<SetPin, AllocError> {
    let key = KeyText::copied_from(alloc, key.as_bytes())?;
    Ok(SetPin {
        name: PinId {
            key: PinKey::Text(key),
            want: ServerSet::empty(),
        },
        server: server(at),
        cost: 1,
        moment: Moment::from_millis(moment),
    })
}

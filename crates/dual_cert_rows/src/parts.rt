//! Parts of plans and sheets that tests look for.

use dual_cert::Server;
use lb_types::{Place, ServerId, ServerSet};
use lb_types_pins::{Group, PinKind};

/// A server by name and capacity.
pub(crate) type ServerRow = (&'static [u8], Option<u32>);

/// A group by count, place, permitted servers and cost.
pub(crate) type GroupRow = (u32, Option<u8>, &'static [u8], u16);

pub(crate) fn is_server(found: &Server, name: &[u8], capacity: Option<u32>) -> bool {
    found.name.as_bytes() == name && found.capacity == capacity
}

pub(crate) fn are_servers(found: &[Server], wanted: &[ServerRow]) -> bool {
    for (server, row) in found.iter().zip(wanted) {
        if !is_server(server, row.0, row.1) {
            return false;
        }
    }
    found.len() == wanted.len()
}

pub(crate) fn are_groups(found: &[Group], wanted: &[GroupRow]) -> bool {
    for (group, row) in found.iter().zip(wanted) {
        let kind = kind(row.1, row.2, row.3);
        if group.count != row.0 || group.kind != kind {
            return false;
        }
    }
    found.len() == wanted.len()
}

/// The set of these servers.
pub(crate) fn set_of(servers: &[u8]) -> ServerSet {
    let mut set = ServerSet::empty();
    for server in servers {
        set = set.with(ServerId::new(*server % 128));
    }
    set
}

pub(crate) fn place_of(server: Option<u8>) -> Place {
    match server {
        Some(server) => Some(ServerId::new(server % 128)),
        None => None,
    }
}

pub(crate) fn kind(place: Option<u8>, permitted: &[u8], cost: u16) -> PinKind {
    PinKind {
        place: place_of(place),
        permitted: set_of(permitted),
        cost,
    }
}

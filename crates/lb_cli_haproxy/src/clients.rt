ghost use Rattle.std.specs.Prelude.{◌≡◌, ◌++◌, ◌≤◌, ◌==◌, [], length, position, find, filter_map, bytes_eq, IfOk, OnOk};
ghost use Rattle.std.specs.List.{cons_option};
ghost use Rattle.std.specs.Option.{option_copied, option_map};
ghost use Rattle.lb_types.specs.declared.limits.TheConstants.{MAX_SERVERS};
ghost use Rattle.lb_cli_haproxy.specs.Clients.{name_of_number, server_named, place_named, client_of, clients_of, places_of};

use haproxy_admin::{Bytes, Entry, Server};
use lb_types::{Place, ServerId};
use pin_set::ViewServer;
use std::alloc::{AllocError, Global};

/// A client of a farm: an entry of HAProxy's table.
#[derive(Debug, Drop)]
pub struct Client {
    /// The key of its entry.
    pub key: Bytes,
    /// Where it is.
    pub place: Place,
}

/// The clients among the entries, in their order. An entry that names no server of the farm is passed over.
pub(crate) fn clients_of(
    alloc: Global,
    servers: &[Server],
    farm: &[ViewServer],
    entries: &[Entry],
) -> Result<Vec<Client>, AllocError>
    requires { length farm.now ≤ MAX_SERVERS }
    ensures { IfOk result (λ clients. clients.items ≡ clients_of servers.now farm.now entries.now) }
{
    let mut clients = Vec::new(alloc);
    for entry in entries {
        add_client(alloc, servers, farm, entry, &mut clients)?;
    }
    Ok(clients)
}

/// Adds the client that the entry is, if it is one.
#[tactic(auto, unfolding(crate::specs::Clients::client_of))]
fn add_client(
    alloc: Global,
    servers: &[Server],
    farm: &[ViewServer],
    entry: &Entry,
    clients: &mut Vec<Client>,
) -> Result<(), AllocError>
    requires { length farm.now ≤ MAX_SERVERS }
    ensures { OnOk result (clients.new.items ≡ clients.old.items ++ cons_option (client_of servers.now farm.now entry.now) []) }
{
    let Some(server) = place_of(servers, farm, entry) else {
        return Ok(());
    };
    let key = Bytes::copied_from(alloc, entry.key.as_slice())?;
    clients.push(Client {
        key,
        place: Some(server),
    })?;
    Ok(())
}

/// Which server of the farm the entry names.
#[tactic(auto, unfolding(crate::specs::Clients::place_named))]
fn place_of(servers: &[Server], farm: &[ViewServer], entry: &Entry) -> Option<ServerId>
    requires { length farm.now ≤ MAX_SERVERS }
    ensures { result ≡ place_named farm.now (server_named servers.now entry.now) }
{
    let name = server_named(servers, entry)?;
    let place = position_of(farm, name)?;
    Some(ServerId::new(place as u8))
}

fn position_of(farm: &[ViewServer], name: &[u8]) -> Option<usize>
    ensures { result ≡ position (λ server. bytes_eq server.name name.now) farm.now }
{
    farm.iter().position(|server| has_name(server, name))
}

fn has_name(server: &ViewServer, name: &[u8]) -> bool
    ensures { result ≡ bytes_eq server.now.name name.now }
{
    server.name.as_bytes() == name
}

/// The name of the server that the entry names.
#[tactic(auto, unfolding(crate::specs::Clients::server_named))]
fn server_named<'a>(servers: &'a [Server], entry: &'a Entry) -> Option<&'a [u8]>
    ensures { option_copied result ≡ server_named servers.now entry.now }
{
    match &entry.server_name {
        Some(name) => Some(name.as_slice()),
        None => name_of_number(servers, entry.server_number),
    }
}

/// The name of the first server with this number.
#[tactic(auto, unfolding(crate::specs::Clients::name_of_number))]
fn name_of_number(servers: &[Server], number: Option<u64>) -> Option<&[u8]>
    ensures { option_copied result ≡ name_of_number servers.now number }
{
    let server = server_numbered(servers, number?)?;
    Some(server.name.as_slice())
}

/// The first server with this number.
fn server_numbered(servers: &[Server], number: u64) -> Option<&Server>
    ensures { option_copied result ≡ find (λ server. server.number == number) servers.now }
{
    servers.iter().find(|server| server.number == number)
}

/// Where the clients are.
pub(crate) fn places_of(alloc: Global, clients: &[Client]) -> Result<Vec<Place>, AllocError>
    ensures { IfOk result (λ places. places.items ≡ places_of clients.now) }
{
    clients.iter().map(|client| client.place).collect(alloc)
}

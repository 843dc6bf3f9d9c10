ghost use Rattle.std.specs.Prelude.{◌≡◌, ◌++◌, [], Some, map, find, length, bytes_eq, IfOk, OnOk, IfSome};
ghost use Rattle.std.specs.List.{cons_option};
ghost use Rattle.std.specs.Option.{option_copied};
ghost use Rattle.lb_cli_haproxy.specs.Moves.{number_named, numbers_named, number_at, all_have_numbers, move_of, moves_of, said_by};

use crate::clients::Client;
use haproxy_admin::Server;
use haproxy_commands::Move;
use lb_types::Place;
use pin_set::ViewServer;
use std::alloc::{AllocError, Global};

/// The number that HAProxy has for each server of the farm. None if a server isn't among HAProxy's.
pub(crate) fn numbers_of(
    alloc: Global,
    servers: &[Server],
    farm: &[ViewServer],
) -> Result<Option<Vec<u32>>, AllocError>
    ensures { IfOk result (λ found. IfSome found (λ numbers.
        map (λ number. Some number) numbers.items ≡ numbers_named servers.now farm.now)) }
{
    let mut numbers = Vec::with_capacity(alloc, farm.len())?;
    for server in farm {
        let Some(number) = number_named(servers, server.name.as_bytes()) else {
            return Ok(None);
        };
        numbers.push(number)?;
    }
    Ok(Some(numbers))
}

/// The number of the first server with this name, if it has 32 bits.
#[tactic(auto, unfolding(crate::specs::Moves::number_named))]
fn number_named(servers: &[Server], name: &[u8]) -> Option<u32>
    ensures { IfSome result (λ number. number_named servers.now name.now ≡ Some number) }
{
    let server = server_named(servers, name)?;
    u32::try_from(server.number).ok()
}

/// The first server with this name.
pub(crate) fn server_named<'a>(servers: &'a [Server], name: &[u8]) -> Option<&'a Server>
    ensures { option_copied result ≡ find (λ server. bytes_eq server.name name.now) servers.now }
{
    servers.iter().find(|server| has_name(server, name))
}

fn has_name(server: &Server, name: &[u8]) -> bool
    ensures { result ≡ bytes_eq server.now.name name.now }
{
    server.name.as_slice() == name
}

/// Whether each place is that of a server with a number.
pub(crate) fn all_have_numbers(numbers: &[u32], places: &[Place]) -> bool
    ensures { result ≡ all_have_numbers numbers.now places.now }
{
    places
        .iter()
        .all(|place| number_at(numbers, *place).is_some())
}

/// The number of the server at the place.
#[tactic(auto, unfolding(crate::specs::Moves::number_at))]
fn number_at(numbers: &[u32], place: Place) -> Option<u32>
    ensures { result ≡ number_at numbers.now place }
{
    let server = place?;
    numbers.get(server.index()).copied()
}

/// The moves of the clients to the places, in the clients' order. A client that stays has none.
pub(crate) fn moves_of<'a>(
    alloc: Global,
    numbers: &[u32],
    clients: &'a [Client],
    places: &[Place],
) -> Result<Vec<Move<'a>>, AllocError>
    requires { length places.now ≡ length clients.now }
    ensures { IfOk result (λ moves. said_by moves.items ≡ moves_of numbers.now clients.now places.now) }
{
    let mut moves = Vec::new(alloc);
    for i in 0..clients.len() {
        add_move(numbers, &clients[i], places[i], &mut moves)?;
    }
    Ok(moves)
}

/// Adds the client's move to the place, if it isn't there already.
#[tactic(auto, unfolding(crate::specs::Moves::move_of, crate::specs::Moves::said_by))]
fn add_move<'a>(
    numbers: &[u32],
    client: &'a Client,
    place: Place,
    moves: &mut Vec<Move<'a>>,
) -> Result<(), AllocError>
    ensures { OnOk result (said_by moves.new.items ≡ said_by moves.old.items ++ cons_option (move_of numbers.now client.now place) []) }
{
    if client.place == place {
        return Ok(());
    }
    let Some(server) = number_at(numbers, place) else {
        return Ok(());
    };
    moves.push(Move {
        key: client.key.as_slice(),
        server,
    })?;
    Ok(())
}

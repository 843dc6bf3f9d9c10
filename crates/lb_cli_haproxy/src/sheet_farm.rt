//! HAProxy's servers as those of a farm, once one of them is emptied.
ghost use Rattle.std.specs.Prelude.{◌≡◌, ◌≤◌, ℕ, length, count_by, IfOk, IfSome};
ghost use Rattle.lb_types.specs.declared.limits.TheConstants.{MAX_PINS, MAX_SERVERS};
ghost use Rattle.lb_types.specs.Servers.{has};
ghost use Rattle.pin_set.specs.Assignments.{is_at, load};
ghost use Rattle.lb_cli_haproxy.specs.Sheets.{bare_farm, bare_server, farm_with, farm_without, server_with, share_of, stays_on, stays_on_at};

use crate::sets::with_if;
use haproxy_admin::Server;
use lb_types::{MAX_SERVERS, Name, Place, ServerId, ServerSet};
use pin_set::ViewServer;
use std::alloc::{AllocError, Global};

/// HAProxy's servers, without room. None if a sheet can't have so many, or one of the names.
pub(crate) fn bare_farm(
    alloc: Global,
    servers: &[Server],
) -> Result<Option<Vec<ViewServer>>, AllocError>
    ensures exact { IfOk result (λ found. IfSome found (λ farm. farm.items ≡ bare_farm servers.now)) }
    ensures few { IfOk result (λ found. IfSome found (λ farm. length servers.now ≤ MAX_SERVERS)) }
{
    if servers.len() > MAX_SERVERS {
        return Ok(None);
    }
    let mut farm = Vec::with_capacity(alloc, servers.len())?;
    for server in servers {
        let Some(bare) = bare_server(server) else {
            return Ok(None);
        };
        farm.push(bare)?;
    }
    Ok(Some(farm))
}

fn bare_server(server: &Server) -> Option<ViewServer>
    ensures { IfSome result (λ bare. bare ≡ bare_server server.now) }
{
    let name = Name::read(server.name.as_slice()).ok()?;
    Some(ViewServer { name, capacity: 0 })
}

/// The servers that take clients once the one of this name is emptied.
pub(crate) fn usable_servers(servers: &[Server], gone: &[u8]) -> ServerSet
    requires { length servers.now ≤ MAX_SERVERS }
    ensures { (at : ℕ) → has result at ≡ stays_on_at gone.now servers.now at }
{
    let mut usable = ServerSet::empty();
    for i in 0..servers.len() {
        usable = with_if(usable, ServerId::new(i as u8), stays_on(&servers[i], gone));
    }
    usable
}

fn stays_on(server: &Server, gone: &[u8]) -> bool
    ensures { result ≡ stays_on gone.now server.now }
{
    server.is_on && server.name.as_slice() != gone
}

/// The servers with room for these clients, once the one of this name is emptied.
pub(crate) fn farm_without(
    alloc: Global,
    servers: &[Server],
    bare: &[ViewServer],
    gone: &[u8],
    places: &[Place],
) -> Result<Vec<ViewServer>, AllocError>
    requires same { bare.now ≡ bare_farm servers.now }
    requires few { length servers.now ≤ MAX_SERVERS }
    requires places { length places.now ≤ MAX_PINS }
    ensures { IfOk result (λ farm. farm.items ≡ farm_without gone.now servers.now places.now) }
{
    let share = share_of(places.len() as u32, count_on(servers, gone) as u32);
    with_room(alloc, share, places, bare)
}

/// How many servers take clients once the one of this name is emptied.
fn count_on(servers: &[Server], gone: &[u8]) -> usize
    ensures { result ≡ count_by (stays_on gone.now) servers.now }
{
    let mut count = 0;
    for server in servers {
        if stays_on(server, gone) {
            count += 1;
        }
    }
    count
}

/// 5 per cent more than the even share of so many servers, rounded up; 0 if there is no server.
fn share_of(clients: u32, servers: u32) -> u32
    requires clients { clients ≤ MAX_PINS }
    requires servers { servers ≤ MAX_SERVERS }
    ensures { result ≡ share_of clients servers }
{
    if servers == 0 {
        return 0;
    }
    (105 * clients).div_ceil(100 * servers)
}

/// The servers with their room, in order.
fn with_room(
    alloc: Global,
    share: u32,
    places: &[Place],
    bare: &[ViewServer],
) -> Result<Vec<ViewServer>, AllocError>
    requires few { length bare.now ≤ MAX_SERVERS }
    requires places { length places.now ≤ MAX_PINS }
    ensures { IfOk result (λ farm. farm.items ≡ farm_with share places.now 0 bare.now) }
{
    let mut farm = Vec::with_capacity(alloc, bare.len())?;
    for i in 0..bare.len() {
        let server = server_with(share, places, ServerId::new(i as u8), &bare[i]);
        farm.push(server)?;
    }
    Ok(farm)
}

fn server_with(share: u32, places: &[Place], at: ServerId, server: &ViewServer) -> ViewServer
    requires { length places.now ≤ MAX_PINS }
    ensures { result ≡ server_with share places.now at server.now }
{
    ViewServer {
        name: server.name,
        capacity: share.max(load(places, at)),
    }
}

/// How many clients are at the place.
fn load(places: &[Place], at: ServerId) -> u32
    requires { length places.now ≤ MAX_PINS }
    ensures { result ≡ load places.now at }
{
    let mut count = 0;
    for place in places {
        if is_at(at, place) {
            count += 1;
        }
    }
    count
}

fn is_at(server: ServerId, place: &Place) -> bool
    ensures { result ≡ is_at server place.now }
{
    match place {
        Some(at) => at.index() == server.index(),
        None => false,
    }
}

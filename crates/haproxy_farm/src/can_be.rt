ghost use Rattle.std.specs.Prelude.{◌≡◌, ◌≢◌, ◌^◌, ◌<◌, ◌≤◌, ◌↔◌, ℕ, true, length, All, AllPairs, IsTrue};
ghost use Rattle.lb_types.specs.declared.limits.TheConstants.{MAX_SERVERS};
ghost use Rattle.lb_types.specs.Names.{is_name};
ghost use Rattle.lb_types.specs.Servers.{has};
ghost use Rattle.pin_set.specs.Views.{IsBelow};
ghost use Rattle.haproxy_farm.specs.Farms.{CanBeFarm};

use lb_types::{MAX_PINS, MAX_SERVERS, Place, ServerId, ServerSet};
use pin_set::ViewServer;

/// Whether a backend can have these servers, with these of them usable and with entries at these places.
pub(crate) fn can_be_farm(usable: ServerSet, servers: &[ViewServer], places: &[Place]) -> bool
    ensures can { IsTrue result ↔ CanBeFarm usable servers.now places.now }
    ensures named { IsTrue result → All (λ s. is_name s.name ≡ true) servers.now }
    ensures room { IsTrue result → All (λ s. s.capacity < 2 ^ 32) servers.now }
{
    let n = servers.len();
    n <= MAX_SERVERS
        && places.len() as u64 <= MAX_PINS
        && have_own_names(servers)
        && are_below(n, usable)
        && places.iter().all(|place| is_below(n, *place))
}

/// Whether no two servers have one name.
fn have_own_names(servers: &[ViewServer]) -> bool
    ensures own { IsTrue result ↔ AllPairs (λ a b. a.name ≢ b.name) servers.now }
    ensures named { IsTrue result → All (λ s. is_name s.name ≡ true) servers.now }
    ensures room { IsTrue result → All (λ s. s.capacity < 2 ^ 32) servers.now }
{
    for i in 0..servers.len() {
        if !is_new(&servers[..i], &servers[i]) {
            return false;
        }
    }
    true
}

/// Whether no server has the name of this one.
fn is_new(servers: &[ViewServer], server: &ViewServer) -> bool
    ensures named { is_name server.now.name ≡ true }
    ensures room { server.now.capacity < 2 ^ 32 }
    ensures new { IsTrue result ↔ All (λ s. s.name ≢ server.now.name) servers.now }
{
    let _capacity = server.capacity;
    let name = server.name.as_bytes();
    servers.iter().all(|other| other.name.as_bytes() != name)
}

/// Whether the servers are among the first n.
fn are_below(n: usize, servers: ServerSet) -> bool
    requires { n ≤ MAX_SERVERS }
    ensures { IsTrue result ↔ ((server : ℕ) → has servers server ≡ true → server < n) }
{
    servers.meet(first_servers(n)) == servers
}

fn first_servers(n: usize) -> ServerSet
    requires { n ≤ MAX_SERVERS }
    ensures { (server : ℕ) → has result server ≡ true ↔ server < n }
{
    let mut servers = ServerSet::empty();
    for i in 0..n {
        servers = servers.with(ServerId::new(i as u8));
    }
    servers
}

/// Whether the place is none, or one of the first n servers.
fn is_below(n: usize, place: Place) -> bool
    ensures { IsTrue result ↔ IsBelow n place }
{
    match place {
        Some(server) => server.index() < n,
        None => true,
    }
}

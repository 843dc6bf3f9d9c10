ghost use Rattle.std.specs.Prelude.{◌≡◌, ◌^◌, ◌<◌, ◌≤◌, ◌↔◌, ℕ, true, length, map, IsTrue, IsSome, IfOk, IfSome, All};
ghost use Rattle.lb_types.specs.Names.{is_name};
ghost use Rattle.lb_types.specs.Servers.{has};
ghost use Rattle.pin_groups_spread.specs.Numbered.{AreBelow, AreNumberedServers, AreNumberedPins, CanBeNumbered, IsPlain, key_number, letters_of, plain_of};

use lb_types::{MAX_COST, MAX_PINS, MAX_SERVERS, Name, Place, ServerId, ServerSet};
use pin_set::{Pin, PinId, PinKey, View, ViewServer};
use std::alloc::{AllocError, Global};
use std::net::Ipv4Addr;

/// A pin without a key.
#[derive(Clone, Copy, Debug, PartialEq, Eq)]
pub struct PlainPin {
    pub place: Place,
    pub want: ServerSet,
    /// 1 to 1000.
    pub cost: u16,
}

/// The view of servers of these capacities and of these pins, whose keys are the addresses of their numbers. The servers
/// are called `aa` to `ap`, `ba` to `bp` and so on.
///
/// None exactly where a place or a usable server is none of the servers, where a cost isn't 1 to 1000, or where there are
/// more servers or pins than a view may have.
pub fn numbered_view(
    alloc: Global,
    usable: ServerSet,
    capacities: &[u32],
    pins: &[PlainPin],
) -> Result<Option<View>, AllocError>
    ensures some { IfOk result (λ found. IsSome found ↔ CanBeNumbered usable capacities.now pins.now) }
    ensures usable { IfOk result (λ found. IfSome found (λ view. view.usable ≡ usable)) }
    ensures capacities { IfOk result (λ found. IfSome found (λ view.
        map (λ server. server.capacity) view.servers ≡ capacities.now)) }
    ensures pins { IfOk result (λ found. IfSome found (λ view. map plain_of view.pins ≡ pins.now)) }
    ensures names { IfOk result (λ found. IfSome found (λ view. AreNumberedServers view.servers)) }
    ensures keys { IfOk result (λ found. IfSome found (λ view.
        AreNumberedPins (length capacities.now) view.pins)) }
{
    let n = capacities.len();
    if n > MAX_SERVERS || pins.len() as u64 > MAX_PINS {
        return Ok(None);
    }
    if !are_below(n, usable) || !pins.iter().all(|pin| is_plain(n, pin)) {
        return Ok(None);
    }
    let servers = numbered_servers(alloc, capacities)?;
    let pins = numbered_pins(alloc, n, pins)?;
    let view = View::new(usable, servers, pins);
    Ok(Some(view))
}

/// Whether the servers are among the first n.
fn are_below(n: usize, servers: ServerSet) -> bool
    requires { n ≤ MAX_SERVERS }
    ensures { IsTrue result ↔ AreBelow n servers }
{
    servers.meet(first_servers(n)) == servers
}

fn first_servers(n: usize) -> ServerSet
    requires { n ≤ MAX_SERVERS }
    ensures { (server : ℕ) → has result server ≡ true ↔ server < n }
{
    let mut servers = ServerSet::empty();
    for i in 0..n {
        servers = servers.with(ServerId::new(i as u8));
    }
    servers
}

fn is_plain(n: usize, pin: &PlainPin) -> bool
    ensures { IsTrue result ↔ IsPlain n pin.now }
{
    let is_among = match pin.place {
        Some(server) => server.index() < n,
        None => true,
    };
    is_among && pin.cost >= 1 && u64::from(pin.cost) <= MAX_COST
}

fn numbered_servers(alloc: Global, capacities: &[u32]) -> Result<Vec<ViewServer>, AllocError>
    requires { length capacities.now ≤ MAX_SERVERS }
    ensures capacities { IfOk result (λ servers.
        map (λ server. server.capacity) servers.items ≡ capacities.now) }
    ensures numbered { IfOk result (λ servers. AreNumberedServers servers.items) }
{
    let mut servers = Vec::new(alloc);
    for (i, capacity) in capacities.iter().enumerate() {
        servers.push(ViewServer {
            name: numbered_name(i),
            capacity: *capacity,
        })?;
    }
    Ok(servers)
}

/// Two letters.
fn numbered_name(i: usize) -> Name
    requires { i < MAX_SERVERS }
    ensures name { is_name result ≡ true }
    ensures letters { result ≡ letters_of i }
{
    let letters = [b'a' + (i / 16) as u8, b'a' + (i % 16) as u8];
    match Name::read(&letters) {
        Ok(name) => name,
        Err(_) => unreachable!(),
    }
}

fn numbered_pins(alloc: Global, n: usize, plain: &[PlainPin]) -> Result<Vec<Pin>, AllocError>
    requires few { length plain.now ≤ MAX_PINS }
    requires plain { All (IsPlain n) plain.now }
    ensures plain { IfOk result (λ pins. map plain_of pins.items ≡ plain.now) }
    ensures numbered { IfOk result (λ pins. AreNumberedPins n pins.items) }
{
    let mut pins = Vec::with_capacity(alloc, plain.len())?;
    for (i, one) in plain.iter().enumerate() {
        let pin = numbered_pin(i as u32, one);
        pins.push(pin)?;
    }
    Ok(pins)
}

fn numbered_pin(number: u32, plain: &PlainPin) -> Pin
    ensures number { key_number result.id.key ≡ number }
    ensures plain { plain_of result ≡ plain.now }
{
    let key = PinKey::Ipv4(Ipv4Addr::from_bits(number));
    Pin {
        id: PinId {
            key,
            want: plain.want,
        },
        place: plain.place,
        cost: plain.cost,
    }
}

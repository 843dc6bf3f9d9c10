ghost use Rattle.std.specs.Prelude.{◌≡◌, ℕ, ◌&&◌, ◌||◌, ◌==◌, nat_lt};
ghost use Rattle.lb_types.specs.Servers.{has};
ghost use Rattle.pin_set.specs.Assignments.{is_at};
ghost use Rattle.server_state.specs.Farm.{capacity_of};
ghost use Rattle.lb_desk_pick.specs.Walks.{pins_without};

use capacity_book::Book;
use lb_types::{Place, ServerId, ServerSet};
use server_state::Farm;

/// The permitted servers that hold fewer pins than their capacity, where one pin of the place `lost` isn't counted.
pub(crate) fn with_room_for_a_pin(
    farm: &Farm,
    book: &Book,
    permitted: ServerSet,
    lost: &Place,
) -> ServerSet
    ensures { (s : ℕ) → has result s
        ≡ (has permitted s && nat_lt (pins_without book.now lost.now s) (capacity_of farm.now s)) }
{
    let mut found = ServerSet::empty();
    for i in 0..farm.len() {
        let server = ServerId::new(i as u8);
        found = with_if(found, server, may_hold(farm, book, permitted, lost, server));
    }
    found
}

fn may_hold(farm: &Farm, book: &Book, permitted: ServerSet, lost: &Place, server: ServerId) -> bool
    ensures { result
        ≡ (has permitted server && nat_lt (pins_without book.now lost.now server) (capacity_of farm.now server)) }
{
    permitted.has(server) && pins_without(book, lost, server) < farm.capacity(server)
}

/// How many pins the server holds, where one pin of the place `lost` isn't counted.
fn pins_without(book: &Book, lost: &Place, server: ServerId) -> u32
    ensures { result ≡ pins_without book.now lost.now server }
{
    let pins = book.pins(server);
    if is_at(server, lost) {
        pins.saturating_sub(1)
    } else {
        pins
    }
}

fn is_at(server: ServerId, place: &Place) -> bool
    ensures { result ≡ is_at server place.now }
{
    match place {
        Some(at) => at.index() == server.index(),
        None => false,
    }
}

/// The set, with the server where it passed.
fn with_if(set: ServerSet, server: ServerId, passed: bool) -> ServerSet
    ensures { (s : ℕ) → has result s ≡ ((passed && s == server) || has set s) }
{
    if passed { set.with(server) } else { set }
}

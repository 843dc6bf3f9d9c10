ghost use Rattle.std.specs.Prelude.{◌≡◌, ◌≤◌, ◌-◌, List, Option, Some, filter, fold, length, if◌then◌else◌};
ghost use Rattle.std.specs.List.{range_with_len};
ghost use Rattle.lb_types.specs.Servers.{has};
ghost use Rattle.capacity_book.specs.Book.{connections_at};
ghost use Rattle.server_state.specs.Farm.{weight_of};
ghost use Rattle.lb_desk_model.specs.Picks.{least_loaded};
ghost use Rattle.lb_desk_model.specs.States.{ServerState};
ghost use Rattle.lb_desk_pick.specs.Sights.{AreSeen};
ghost use Rattle.lb_desk_pick.specs.Walks.{HaveWeights, is_as_free, freer, first_behind};

use crate::round::behind;
use capacity_book::Book;
use lb_desk_model::Stand;
use lb_types::{ServerId, ServerSet};
use server_state::Farm;

/// The candidate with the fewest connections for its weight; of several the first after the cursor's server, going round. It looks
/// at each server once.
pub(crate) fn least_loaded(
    farm: &Farm,
    book: &Book,
    candidates: ServerSet,
    cursor: Option<Stand>,
) -> Option<ServerId>
    requires { HaveWeights farm.now candidates }
    ensures { (servers : List ServerState) → AreSeen farm.now book.now servers
        → result ≡ least_loaded (has candidates) servers cursor }
{
    let end = farm.len();
    let start = first_behind(cursor, end);
    let found = freest_between(farm, book, candidates, start, end, None);
    freest_between(farm, book, candidates, 0, start, found)
}

/// The number of the first server after the cursor's, at most `end`.
fn first_behind(cursor: Option<Stand>, end: usize) -> usize
    ensures exact { result ≡ first_behind cursor end }
    ensures within { result ≤ end }
{
    match cursor {
        Some(last) => behind(last.server, end),
        None => 0,
    }
}

/// The freest of the one found before and the candidates from number `from` on and below `end`; of several the first.
fn freest_between(
    farm: &Farm,
    book: &Book,
    candidates: ServerSet,
    from: usize,
    end: usize,
    found: Option<ServerId>,
) -> Option<ServerId>
    requires within { from ≤ end }
    requires few { end ≤ 128 }
    ensures { result ≡ fold (freer (is_as_free farm.now book.now)) found
        (filter (has candidates) (range_with_len from (end - from))) }
{
    let mut freest = found;
    for i in from..end {
        freest = freer_of(farm, book, candidates, freest, ServerId::new(i as u8));
    }
    freest
}

/// The server found before, or this one where it is a candidate, and freer.
fn freer_of(
    farm: &Farm,
    book: &Book,
    candidates: ServerSet,
    found: Option<ServerId>,
    server: ServerId,
) -> Option<ServerId>
    ensures { result ≡ (if has candidates server then freer (is_as_free farm.now book.now) found server else found) }
{
    if candidates.has(server) {
        freer(farm, book, found, server)
    } else {
        found
    }
}

/// The server found before, or this one where it is freer.
fn freer(farm: &Farm, book: &Book, found: Option<ServerId>, server: ServerId) -> Option<ServerId>
    ensures { result ≡ freer (is_as_free farm.now book.now) found server }
{
    match found {
        Some(best) if is_as_free(farm, book, best, server) => Some(best),
        _ => Some(server),
    }
}

/// Whether the one has at most as many connections for its weight as the other. Products of 64 and 9 bits are compared.
fn is_as_free(farm: &Farm, book: &Book, one: ServerId, other: ServerId) -> bool
    ensures { result ≡ is_as_free farm.now book.now one other }
{
    let mine = u128::from(book.connections(one)) * u128::from(farm.weight(other));
    let its = u128::from(book.connections(other)) * u128::from(farm.weight(one));
    mine <= its
}

ghost use Rattle.std.specs.Prelude.{◌≡◌, ◌&&◌, List, length};
ghost use Rattle.std.specs.List.{find, range_with_len};
ghost use Rattle.lb_types.specs.Servers.{has};
ghost use Rattle.lb_desk_model.specs.Picks.{first_free};
ghost use Rattle.lb_desk_model.specs.States.{ServerState};
ghost use Rattle.lb_desk_pick.specs.Sights.{AreSeen};
ghost use Rattle.lb_desk_pick.specs.Walks.{has_connection};

use crate::servers::first_between;
use capacity_book::Book;
use lb_types::{ServerId, ServerSet};
use server_state::Farm;

/// The first candidate with a free connection, or else the first candidate. It looks at each server at most twice.
pub(crate) fn first_free(farm: &Farm, book: &Book, candidates: ServerSet) -> Option<ServerId>
    ensures { (servers : List ServerState) → AreSeen farm.now book.now servers
        → result ≡ first_free (has candidates) servers }
{
    match first_with_connection(farm, book, candidates) {
        Some(server) => Some(server),
        None => first_between(candidates, 0, farm.len()),
    }
}

fn first_with_connection(farm: &Farm, book: &Book, candidates: ServerSet) -> Option<ServerId>
    ensures { result ≡ find (λ s. has candidates s && has_connection farm.now book.now s)
        (range_with_len 0 (length farm.now.servers)) }
{
    for i in 0..farm.len() {
        let server = ServerId::new(i as u8);
        if is_free(farm, book, candidates, server) {
            return Some(server);
        }
    }
    None
}

fn is_free(farm: &Farm, book: &Book, candidates: ServerSet, server: ServerId) -> bool
    ensures { result ≡ (has candidates server && has_connection farm.now book.now server) }
{
    candidates.has(server) && has_connection(farm, book, server)
}

/// Whether one more connection may be opened at the server, as far as its `maxconn` goes.
fn has_connection(farm: &Farm, book: &Book, server: ServerId) -> bool
    ensures { result ≡ has_connection farm.now book.now server }
{
    let limit = farm.max_connections(server);
    limit == 0 || book.connections(server) < u64::from(limit)
}

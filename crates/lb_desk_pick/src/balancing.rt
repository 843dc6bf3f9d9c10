ghost use Rattle.std.specs.Prelude.{◌≡◌, List, Some};
ghost use Rattle.std.specs.Option.{option_map};
ghost use Rattle.lb_types.specs.Servers.{has};
ghost use Rattle.lb_desk_model.specs.Picks.{picked, stand, balanced};
ghost use Rattle.lb_desk_model.specs.States.{ServerState};
ghost use Rattle.lb_desk_pick.specs.Sights.{AreSeen};
ghost use Rattle.lb_desk_pick.specs.Walks.{HaveWeights};

use crate::free::first_free;
use crate::least::least_loaded;
use crate::pick::Pick;
use crate::round::next_stand;
use capacity_book::Book;
use lb_desk_model::Stand;
use lb_types::{Balance, ServerId, ServerSet};
use server_state::Farm;

/// The candidate that the balance says, and the cursor after it. It looks at each server at most twice.
pub(crate) fn balanced(
    balance: Balance,
    farm: &Farm,
    book: &Book,
    candidates: ServerSet,
    cursor: Option<Stand>,
) -> Option<Pick>
    requires { HaveWeights farm.now candidates }
    ensures { (servers : List ServerState) → AreSeen farm.now book.now servers
        → result ≡ balanced balance (has candidates) servers cursor }
{
    match balance {
        Balance::RoundRobin => taken_at(next_stand(farm, candidates, cursor)),
        Balance::LeastConnections => taken_first(least_loaded(farm, book, candidates, cursor)),
        Balance::First => taken_in_place(cursor, first_free(farm, book, candidates)),
    }
}

/// The server, where the cursor stays.
pub(crate) fn taken_in_place(cursor: Option<Stand>, server: Option<ServerId>) -> Option<Pick>
    ensures { result ≡ option_map (picked cursor) server }
{
    let server = server?;
    Some(Pick { server, cursor })
}

/// The stand's server, where the cursor is set to the stand.
fn taken_at(stand: Option<Stand>) -> Option<Pick>
    ensures { result ≡ option_map (λ s. picked (Some s) s.server) stand }
{
    let stand = stand?;
    Some(Pick {
        server: stand.server,
        cursor: Some(stand),
    })
}

/// The server, where the cursor is set to its first stand.
fn taken_first(server: Option<ServerId>) -> Option<Pick>
    ensures { result ≡ option_map (λ server. picked (Some (stand server 1)) server) server }
{
    let server = server?;
    Some(Pick {
        server,
        cursor: Some(Stand { server, turn: 1 }),
    })
}

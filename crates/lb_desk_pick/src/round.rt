ghost use Rattle.std.specs.Prelude.{◌≡◌, ◌+◌, ◌-◌, ◌≤◌, ◌&&◌, nat_lt, List, map, Some, None, min, if◌then◌else◌};
ghost use Rattle.std.specs.List.{find, range_with_len};
ghost use Rattle.std.specs.Option.{option_map};
ghost use Rattle.lb_types.specs.Servers.{has};
ghost use Rattle.server_state.specs.Farm.{weight_of};
ghost use Rattle.lb_desk_model.specs.Picks.{stand, stands, is_behind, next_stand};
ghost use Rattle.lb_desk_model.specs.States.{ServerState, seen_server};
ghost use Rattle.lb_desk_pick.specs.Walks.{HaveWeights};

use crate::servers::first_between;
use lb_desk_model::Stand;
use lb_types::{ServerId, ServerSet};
use server_state::Farm;

/// The next stand of a candidate after the cursor, going round. It looks at each server at most twice.
///
/// The stands are never written out: after the cursor come the next turn of its own server, and then first turns alone.
pub(crate) fn next_stand(farm: &Farm, candidates: ServerSet, cursor: Option<Stand>) -> Option<Stand>
    requires { HaveWeights farm.now candidates }
    ensures { (servers : List ServerState) → map seen_server servers ≡ farm.now.servers
        → result ≡ next_stand (has candidates) servers cursor }
{
    let end = farm.len();
    let Some(last) = cursor else {
        return first_turn(candidates, 0, end);
    };
    match stand_behind(farm, candidates, last) {
        Some(stand) => Some(stand),
        None => first_turn(candidates, 0, end),
    }
}

/// The first stand of a candidate after this one, without going round.
fn stand_behind(farm: &Farm, candidates: ServerSet, last: Stand) -> Option<Stand>
    requires { HaveWeights farm.now candidates }
    ensures { (servers : List ServerState) → map seen_server servers ≡ farm.now.servers
        → result ≡ find (λ s. is_behind (Some last) s && has candidates s.server) (stands servers) }
{
    let end = farm.len();
    let from = behind(last.server, end);
    match next_turn(farm, candidates, last) {
        Some(stand) => Some(stand),
        None => first_turn(candidates, from, end),
    }
}

/// The next turn of the stand's own server, where that is a candidate and has one.
fn next_turn(farm: &Farm, candidates: ServerSet, last: Stand) -> Option<Stand>
    ensures { result ≡ (if has candidates last.server && nat_lt last.turn (weight_of farm.now last.server)
        then Some (stand last.server (last.turn + 1)) else None) }
{
    let Stand { server, turn } = last;
    if candidates.has(server) && turn < farm.weight(server) {
        Some(Stand {
            server,
            turn: turn + 1,
        })
    } else {
        None
    }
}

/// The first turn of the first candidate from number `from` on and below `end`.
fn first_turn(candidates: ServerSet, from: usize, end: usize) -> Option<Stand>
    requires { end ≤ 128 }
    ensures { result ≡ option_map (λ s. stand s 1) (find (has candidates) (range_with_len from (end - from))) }
{
    let server = first_between(candidates, from, end)?;
    Some(Stand { server, turn: 1 })
}

/// The number after the server's, at most `end`.
pub(crate) fn behind(server: ServerId, end: usize) -> usize
    ensures exact { result ≡ min (server + 1) end }
    ensures within { result ≤ end }
{
    (server.index() + 1).min(end)
}

ghost use Rattle.std.specs.Prelude.{◌≡◌, ◌<◌, ◌≤◌, ◌-◌, All, IsTrue, ◌↔◌};
ghost use Rattle.std.specs.List.{find, range_with_len};
ghost use Rattle.lb_types.specs.Servers.{has, members};
ghost use Rattle.server_state.specs.Farm.{set_of};

use lb_types::{MAX_SERVERS, ServerId, ServerSet};

/// The first server of the list that the set holds. It looks at each server of the list at most once.
pub fn first_in(set: ServerSet, servers: &[ServerId]) -> Option<ServerId>
    ensures { result ≡ find (has set) servers.now }
{
    for server in servers {
        if set.has(*server) {
            return Some(*server);
        }
    }
    None
}

/// The set of the servers in the list. It looks at each server of the list once.
pub fn set_of(servers: &[ServerId]) -> ServerSet
    ensures { result ≡ set_of servers.now }
{
    let mut set = ServerSet::empty();
    for server in servers {
        set = set.with(*server);
    }
    set
}

/// Whether each server of the list is one of the first `count`. It looks at each server of the list at most once.
pub fn are_below(servers: &[ServerId], count: usize) -> bool
    ensures { IsTrue result ↔ All (λ server. server < count) servers.now }
{
    servers.iter().all(|server| server.index() < count)
}

/// Whether each server of the set is one of the first `count`. It looks at each of these once.
pub fn are_members_below(set: ServerSet, count: usize) -> bool
    ensures { IsTrue result ↔ All (λ server. server < count) (members set) }
{
    let mut below = 0;
    for i in 0..count.min(MAX_SERVERS) {
        if set.has(ServerId::new(i as u8)) {
            below += 1;
        }
    }
    below == set.len()
}

/// The set's first server from number `from` on and below `end`, in the configuration's order.
pub(crate) fn first_between(set: ServerSet, from: usize, end: usize) -> Option<ServerId>
    requires { end ≤ 128 }
    ensures { result ≡ find (has set) (range_with_len from (end - from)) }
{
    for i in from..end {
        let server = ServerId::new(i as u8);
        if set.has(server) {
            return Some(server);
        }
    }
    None
}

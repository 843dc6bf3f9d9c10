ghost use Rattle.std.specs.Prelude.{◌≡◌, ◌≤◌, length};
ghost use Rattle.flow_planner_net.specs.Networks.{options, size};

use crate::homes::waiting;
use crate::level::Level;
use flow_planner_net::Network;
use lb_types::ServerSet;
use lb_types_pins::Group;

/// How pins are spread over servers that cost them as little. No contract speaks of it: any way would be right.
#[derive(Clone, Copy)]
pub(crate) struct Spread {
    /// The level that the servers come to.
    level: Level,
    /// So many pins of a group go to a server at least, if the group has so many. Servers are even to within as many pins; but
    /// the fewer they are, the more rows has the plan.
    portion: u32,
}

/// How many portions of the pins that are spread a server gets on average.
const PORTIONS: u64 = 8;

impl Spread {
    /// How the pins are spread that can't stay where they are. One walk over the groups, and some over the options.
    pub(crate) fn of(network: &Network, groups: &[Group], loads: &[u32]) -> Spread
        requires groups { groups.now ≡ network.now.groups }
        requires loads { length loads.now ≡ options network.now }
    {
        let mut pins = 0u64;
        let mut servers = ServerSet::empty();
        for group in 0..network.size() {
            let more = waiting(network, groups, group);
            if more > 0 {
                pins = pins.saturating_add(u64::from(more));
                servers = servers.union(groups[group].kind.permitted);
            }
        }
        let portions = PORTIONS.saturating_mul(servers.len() as u64);
        let portion = pins.checked_div(portions).unwrap_or(0);
        Spread {
            level: Level::of(network, loads, servers, pins),
            portion: portion.min(u64::from(u32::MAX)) as u32,
        }
    }

    /// How so many of these pins are spread that may go to each of these servers.
    pub(crate) fn over(
        self,
        network: &Network,
        loads: &[u32],
        servers: ServerSet,
        pins: u32,
    ) -> Spread
        requires { length loads.now ≡ options network.now }
    {
        if self.is_tight() {
            return self;
        }
        let pins = u64::from(pins);
        // Where there is hardly a portion for each server, portions alone make them even.
        let level = if pins <= u64::from(self.portion).saturating_mul(servers.len() as u64) {
            Level::empty()
        } else {
            Level::of(network, loads, servers, pins)
        };
        Spread {
            level,
            portion: self.portion,
        }
    }

    /// The level that the servers come to.
    pub(crate) fn level(self) -> Level {
        self.level
    }

    /// Whether the servers have little room.
    pub(crate) fn is_tight(self) -> bool {
        self.level.is_nearly_full()
    }

    /// How many pins the server with this load is given at once: none where it is full.
    pub(crate) fn share(self, load: u32, capacity: u32) -> u32 {
        let pins = self.level.room(load, capacity).max(self.portion).max(1);
        pins.min(capacity.saturating_sub(load))
    }
}

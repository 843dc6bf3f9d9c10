ghost use Rattle.std.specs.Prelude.{◌≡◌, length};
ghost use Rattle.flow_planner_net.specs.Networks.{options};

use crate::rows::place_of;
use flow_planner_net::Network;
use lb_types::ServerSet;

/// What share of their capacity servers have in use: so many pins of so much room.
///
/// No contract speaks of levels, since they only decide which of equally cheap servers a pin goes to. The products stay below
/// 2^64, as there are at most 2^24 pins, and 128 servers of capacities below 2^32.
#[derive(Clone, Copy, PartialEq, Eq)]
pub(crate) struct Level {
    pins: u64,
    room: u64,
}

impl Level {
    /// The level of servers that have no pins.
    pub(crate) fn empty() -> Level {
        Level { pins: 0, room: 1 }
    }

    /// The level of servers that are full.
    pub(crate) fn full() -> Level {
        Level { pins: 1, room: 1 }
    }

    /// The level that the servers come to over which so many pins more are spread evenly. Servers that are above it already
    /// stay as they are. Some walks over the options, one more than servers drop out after each other.
    pub(crate) fn of(network: &Network, loads: &[u32], servers: ServerSet, pins: u64) -> Level
        requires { length loads.now ≡ options network.now }
    {
        // Above every load.
        let mut level = Level { pins: 1, room: 0 };
        for _ in 0..network.options() {
            let lower = level.without_those_above(network, loads, servers, pins);
            if lower == level {
                return level;
            }
            level = lower;
        }
        level
    }

    /// The level that those of the servers come to that aren't above this one.
    fn without_those_above(
        self,
        network: &Network,
        loads: &[u32],
        servers: ServerSet,
        pins: u64,
    ) -> Level
        requires { length loads.now ≡ options network.now }
    {
        let mut level = Level { pins, room: 0 };
        for option in 1..network.options() {
            let load = loads[option];
            let capacity = network.capacity(option);
            let is_there = place_of(option).is_some_and(|server| servers.has(server));
            if is_there && !self.is_below(load, capacity) {
                level.pins = level.pins.saturating_add(u64::from(load));
                level.room = level.room.saturating_add(u64::from(capacity));
            }
        }
        level
    }

    /// Whether a server with this load has more in use.
    fn is_below(self, load: u32, capacity: u32) -> bool {
        u64::from(capacity).saturating_mul(self.pins) < u64::from(load).saturating_mul(self.room)
    }

    /// Whether more than seven eighths of the room are in use.
    pub(crate) fn is_nearly_full(self) -> bool {
        self.room.saturating_mul(7) < self.pins.saturating_mul(8)
    }

    /// How many pins more a server with this load has at this level, rounded down.
    pub(crate) fn room(self, load: u32, capacity: u32) -> u32 {
        let capacity = u64::from(capacity);
        let share = capacity.saturating_mul(self.pins);
        // Most servers are asked again after they came to the level: no division for them.
        if share <= u64::from(load).saturating_mul(self.room) {
            return 0;
        }
        let pins = share.checked_div(self.room).unwrap_or(0).min(capacity);
        (pins as u32).saturating_sub(load)
    }
}

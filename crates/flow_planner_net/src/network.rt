ghost use Rattle.std.specs.Prelude.{◌≡◌, ◌<◌, ◌≤◌};
ghost use Rattle.flow_planner_net.specs.Networks.{NetworkParts, IsNetwork, options, size, cost, may, count, capacity, limit, place_of};
ghost use Rattle.pin_set.specs.Costs.{option_cost};
ghost use Rattle.pin_set.specs.Assignments.{may_go};

use lb_types::{MAX_COST, MAX_PINS, MAX_SERVERS, Place, ServerId};
use lb_types_pins::{Group, PinKind};
use std::marker::Model;

/// How many options there are at most: each of the servers, and none.
pub const MOST_OPTIONS: usize = MAX_SERVERS + 1;

/// The most that leaving a pin without a server may cost: one more than as many moves as may be, each at its dearest.
pub const MOST_UNPLACED_COST: u64 = MAX_PINS * MAX_COST + 1;

/// The groups of a sheet, and the options of their pins: option 0 is to have no server, and option `s + 1` is the server `s`.
#[derive(Drop)]
pub struct Network<'a> {
    unplaced_cost: u64,
    groups: &'a [Group],
    capacities: &'a [u32],
}

impl<'a> Model for Network<'a> {
    ghost Value = { NetworkParts };

    ghost view = { λ n. record {
      unplaced_cost = n.unplaced_cost;
      groups = n.groups.now;
      capacities = n.capacities.now;
    } };

    ghost invariant = { λ n. IsNetwork (record {
      unplaced_cost = n.unplaced_cost;
      groups = n.groups.now;
      capacities = n.capacities.now;
    }) };
}

impl<'a> Network<'a> {
    /// The network of these groups. `unplaced_cost` is what it costs to leave a pin without a server, and `capacities` has the
    /// room of each option, more than there are pins for the first.
    pub fn new(unplaced_cost: u64, groups: &'a [Group], capacities: &'a [u32]) -> Self
        requires { IsNetwork (record { unplaced_cost = unplaced_cost; groups = groups.now; capacities = capacities.now }) }
        ensures { result ≡ record { unplaced_cost = unplaced_cost; groups = groups.now; capacities = capacities.now } }
    {
        Network {
            unplaced_cost,
            groups,
            capacities,
        }
    }

    /// How many options there are: one more than servers.
    pub fn options(&self) -> usize
        ensures exact { result ≡ options self.now }
        ensures lawful { IsNetwork self.now }
    {
        self.capacities.len()
    }

    /// How many groups there are.
    pub fn size(&self) -> usize
        ensures exact { result ≡ size self.now }
        ensures lawful { IsNetwork self.now }
    {
        self.groups.len()
    }

    /// What a pin of the group costs at the option.
    pub fn cost(&self, group: usize, option: usize) -> u64
        requires group { group < size self.now }
        requires option { option < options self.now }
        ensures exact { result ≡ cost self.now group option }
        ensures lawful { IsNetwork self.now }
    {
        let groups = self.groups;
        option_cost(self.unplaced_cost, &groups[group].kind, option)
    }

    /// Whether pins of the group may go to the option.
    pub fn may(&self, group: usize, option: usize) -> bool
        requires group { group < size self.now }
        requires option { option < options self.now }
        ensures { result ≡ may self.now group option }
    {
        let groups = self.groups;
        may_go(&groups[group].kind, option)
    }

    /// How many pins the group has.
    pub fn count(&self, group: usize) -> u32
        requires { group < size self.now }
        ensures { result ≡ count self.now group }
    {
        let groups = self.groups;
        groups[group].count
    }

    /// No price goes beyond this, and no pin's cost is more.
    pub fn limit(&self) -> u64
        ensures exact { result ≡ limit self.now }
        ensures lawful { IsNetwork self.now }
    {
        self.unplaced_cost + MAX_COST
    }

    /// How many pins the option has room for.
    pub fn capacity(&self, option: usize) -> u32
        requires { option < options self.now }
        ensures { result ≡ capacity self.now option }
    {
        let capacities = self.capacities;
        capacities[option]
    }
}

fn place_of(option: usize) -> Place
    requires { option < MOST_OPTIONS }
    ensures { result ≡ place_of option }
{
    if option == 0 {
        return None;
    }
    Some(ServerId::new((option - 1) as u8))
}

fn may_go(kind: &PinKind, option: usize) -> bool
    requires { option < MOST_OPTIONS }
    ensures { result ≡ may_go kind.now (place_of option) }
{
    place_of(option).is_none_or(|server| kind.permitted.has(server))
}

fn option_cost(unplaced_cost: u64, kind: &PinKind, option: usize) -> u64
    requires option { option < MOST_OPTIONS }
    requires low { unplaced_cost ≤ MOST_UNPLACED_COST }
    ensures { result ≡ option_cost unplaced_cost kind.now (place_of option) }
{
    let place = place_of(option);
    let moved = if kind.place == place {
        0
    } else {
        u64::from(kind.cost)
    };
    if option == 0 {
        unplaced_cost + moved
    } else {
        moved
    }
}

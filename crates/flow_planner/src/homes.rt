ghost use Rattle.std.specs.Prelude.{◌≡◌, ◌<◌, ◌≤◌, true, false, None, length};
ghost use Rattle.flow_planner_net.specs.Networks.{options, size, cost, may};
ghost use Rattle.flow_planner.specs.Fillings.{IsHome, own_option, waiting};

use flow_planner_net::Network;
use lb_types_pins::Group;

/// The option that leaves the group's pins where they are, if they may stay there.
pub(crate) fn own(network: &Network, groups: &[Group], group: usize) -> Option<usize>
    requires group { group < size network.now }
    requires groups { groups.now ≡ network.now.groups }
    ensures { result ≡ own_option network.now group }
{
    let place = groups[group].kind.place?;
    let option = place.index() + 1;
    if option < network.options() && network.may(group, option) {
        Some(option)
    } else {
        None
    }
}

/// How many of the group's pins can't stay where they are: all or none.
pub(crate) fn waiting(network: &Network, groups: &[Group], group: usize) -> u32
    requires group { group < size network.now }
    requires groups { groups.now ≡ network.now.groups }
    ensures { result ≡ waiting network.now group }
{
    if own(network, groups, group).is_some() {
        0
    } else {
        network.count(group)
    }
}

/// The first option that costs the group's pins the least, where they can't stay. To move costs as much at each server.
pub(crate) fn home(network: &Network, groups: &[Group], group: usize) -> usize
    requires group { group < size network.now }
    requires groups { groups.now ≡ network.now.groups }
    requires waits { own_option network.now group ≡ None }
    ensures { IsHome network.now group result }
{
    let options = network.options();
    let Some(server) = groups[group].kind.permitted.first() else {
        return 0;
    };
    let option = server.index() + 1;
    if option >= options {
        return 0;
    }
    if network.cost(group, 0) < network.cost(group, option) {
        return 0;
    }
    option
}

/// Whether the option costs the group's pins as little as `home`.
pub(crate) fn is_home(network: &Network, group: usize, option: usize, home: usize) -> bool
    requires group { group < size network.now }
    requires option { option < options network.now }
    requires home { IsHome network.now group home }
    ensures { result ≡ true → IsHome network.now group option }
{
    network.may(group, option) && network.cost(group, option) <= network.cost(group, home)
}

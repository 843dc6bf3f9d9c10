ghost use Rattle.std.specs.Prelude.{◌≡◌, ℕ, ◌*◌, ◌<◌, ◌≤◌, length};
ghost use Rattle.pin_set.specs.Costs.{sum_to};
ghost use Rattle.flow_planner_net.specs.Networks.{options, size, count, capacity};
ghost use Rattle.flow_planner_net.specs.States.{used_of, at, IsState};
ghost use Rattle.flow_planner_repair.specs.Repairs.{most_looks};
ghost use Rattle.flow_planner.specs.Blanks.{IsBlank};

use crate::placing::start;
use flow_planner_net::Network;
use flow_planner_repair::{Arcs, Label, repair};
use lb_types_pins::Group;

/// Places all pins at options of least cost, and pushes them until no option has more of them than room. Gives the number of
/// pushes, at most one a pin.
///
/// Allocates nothing. Costs some walks over the groups, and over the options for each group that can't stay; and at most
/// `options * (groups + 1) * options` looks a push. `groups` are the network's.
pub(crate) fn solve(
    network: &Network,
    groups: &[Group],
    counts: &mut [u32],
    prices: &mut [u64],
    loads: &mut [u32],
    arcs: &mut Arcs,
    labels: &mut [Label],
) -> u64
    requires groups { groups.now ≡ network.now.groups }
    requires blank { IsBlank network.now counts.old prices.old loads.old arcs.old labels.old }
    ensures state { IsState network.now (used_of (size network.now) counts.new) (at prices.new) (at loads.new) }
    ensures within { (o : ℕ) → o < options network.now → at loads.new o ≤ capacity network.now o }
    ensures table { length counts.new ≡ options network.now * size network.now }
    ensures prices_len { length prices.new ≡ options network.now }
    ensures pushes { result ≤ sum_to (size network.now) (count network.now) }
    ensures looks { arcs.new.looks ≤ result * most_looks network.now }
{
    start(network, groups, counts, loads);
    repair(network, counts, prices, loads, arcs, labels)
}

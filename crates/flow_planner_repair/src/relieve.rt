ghost use Rattle.std.specs.Prelude.{◌≡◌, ◌+◌, ◌*◌, ◌^◌, ◌<◌, ◌≤◌, ℕ, length};
ghost use Rattle.flow_planner_net.specs.Networks.{options, size, capacity};
ghost use Rattle.flow_planner_net.specs.States.{used_of, at, IsState};
ghost use Rattle.flow_planner_repair.specs.Repairs.{IsLaid, excess, most_looks};

use crate::Arcs;
use crate::label::Label;
use crate::push::{carry, push, raise};
use crate::search::search;
use flow_planner_net::Network;

/// One push of pins from `start`, which has more than room, to the nearest option with room.
fn relieve(
    network: &Network,
    counts: &mut [u32],
    prices: &mut [u64],
    loads: &mut [u32],
    arcs: &mut Arcs,
    labels: &mut [Label],
    start: usize,
)
    requires laid { IsLaid network.now counts.old prices.old loads.old arcs.old labels.old }
    requires state { IsState network.now (used_of (size network.now) counts.old) (at prices.old) (at loads.old) }
    requires start { start < options network.now }
    requires over { capacity network.now start < at loads.old start }
    requires few { arcs.old.looks + most_looks network.now < 2 ^ 63 }
    ensures laid { IsLaid network.now counts.new prices.new loads.new arcs.new labels.new }
    ensures state { IsState network.now (used_of (size network.now) counts.new) (at prices.new) (at loads.new) }
    ensures less { excess network.now (at loads.new) + 1 ≤ excess network.now (at loads.old) }
    ensures fits { (o : ℕ) → o < options network.now → at loads.old o ≤ capacity network.now o
        → at loads.new o ≤ capacity network.now o }
    ensures looks { arcs.new.looks ≤ arcs.old.looks + most_looks network.now }
    ensures looks_stay { arcs.old.looks ≤ arcs.new.looks }
{
    let found = search(network, counts, prices, loads, arcs, labels, start);
    let reach = labels[found].dist;
    raise(network, prices, labels, reach);
    let over = loads[start] - network.capacity(start);
    let room = network.capacity(found) - loads[found];
    let most = over.min(room);
    let moved = push(network, labels, counts, arcs, start, found, most);
    carry(loads, start, found, moved);
}

/// Pushes pins from `start` until it has no more than room, and gives the number of pushes.
fn ease(
    network: &Network,
    counts: &mut [u32],
    prices: &mut [u64],
    loads: &mut [u32],
    arcs: &mut Arcs,
    labels: &mut [Label],
    start: usize,
) -> u64
    requires laid { IsLaid network.now counts.old prices.old loads.old arcs.old labels.old }
    requires state { IsState network.now (used_of (size network.now) counts.old) (at prices.old) (at loads.old) }
    requires start { start < options network.now }
    requires few { arcs.old.looks + excess network.now (at loads.old) * most_looks network.now < 2 ^ 63 }
    ensures laid { IsLaid network.now counts.new prices.new loads.new arcs.new labels.new }
    ensures state { IsState network.now (used_of (size network.now) counts.new) (at prices.new) (at loads.new) }
    ensures pushes { result + excess network.now (at loads.new) ≤ excess network.now (at loads.old) }
    ensures none { result ≡ 0 → counts.new ≡ counts.old }
    ensures fits { (o : ℕ) → o < options network.now → at loads.old o ≤ capacity network.now o
        → at loads.new o ≤ capacity network.now o }
    ensures here { at loads.new start ≤ capacity network.now start }
    ensures looks { arcs.new.looks ≤ arcs.old.looks + result * most_looks network.now }
    ensures looks_stay { arcs.old.looks ≤ arcs.new.looks }
{
    let mut pushes = 0;
    while network.capacity(start) < loads[start] {
        relieve(network, counts, prices, loads, arcs, labels, start);
        pushes += 1;
    }
    pushes
}

/// Pushes pins until no option has more of them than room, and gives the number of pushes.
///
/// At most as many pushes as pins stand beyond the options' room, and at most `options * (groups + 1) * options` looks
/// for each.
pub fn repair(
    network: &Network,
    counts: &mut [u32],
    prices: &mut [u64],
    loads: &mut [u32],
    arcs: &mut Arcs,
    labels: &mut [Label],
) -> u64
    requires laid { IsLaid network.now counts.old prices.old loads.old arcs.old labels.old }
    requires state { IsState network.now (used_of (size network.now) counts.old) (at prices.old) (at loads.old) }
    requires few { arcs.old.looks + excess network.now (at loads.old) * most_looks network.now < 2 ^ 63 }
    ensures laid { IsLaid network.now counts.new prices.new loads.new arcs.new labels.new }
    ensures state { IsState network.now (used_of (size network.now) counts.new) (at prices.new) (at loads.new) }
    ensures within { (o : ℕ) → o < options network.now → at loads.new o ≤ capacity network.now o }
    ensures pushes { result ≤ excess network.now (at loads.old) }
    ensures none { result ≡ 0 → counts.new ≡ counts.old }
    ensures looks { arcs.new.looks ≤ arcs.old.looks + result * most_looks network.now }
    ensures looks_stay { arcs.old.looks ≤ arcs.new.looks }
{
    let mut pushes = 0;
    for start in 0..network.options() {
        pushes += ease(network, counts, prices, loads, arcs, labels, start);
    }
    pushes
}

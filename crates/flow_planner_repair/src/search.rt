ghost use Rattle.std.specs.Prelude.{◌≡◌, ◌≢◌, ◌+◌, ◌*◌, ◌^◌, ◌<◌, ◌≤◌, ℕ, true, false, Some, length, slice_index_or};
ghost use Rattle.flow_planner_net.specs.declared.network.TheConstants.{MOST_OPTIONS};
ghost use Rattle.flow_planner_net.specs.Networks.{options, size, cost, may, capacity, limit};
ghost use Rattle.flow_planner_net.specs.States.{full, used_of, at, IsState};
ghost use Rattle.flow_planner_repair.specs.LeastArcs.{ArcsParts, AreArcs, AreKept, AreLeast, least_of};
ghost use Rattle.flow_planner_repair.specs.Searches.{no_label, dist, source, via, rank, far, IsFollowed, IsFound, IsNearest, IsUphill};
ghost use Rattle.flow_planner_repair.specs.Repairs.{IsLaid, search_looks};

use crate::Arcs;
use crate::label::{FAR, Label};
use flow_planner_net::Network;

/// What the option costs the group at the prices.
fn full(network: &Network, prices: &[u64], group: usize, option: usize) -> u64
    requires group { group < size network.now }
    requires option { option < options network.now }
    requires prices { length prices.now ≡ options network.now }
    requires low { (o : ℕ) → o < options network.now → at prices.now o ≤ limit network.now }
    ensures exact { result ≡ full network.now (at prices.now) group option }
    ensures low { result < 2 ^ 40 }
{
    network.cost(group, option) + prices[option]
}

/// Shortens the way to `target` by the arc of the group from `source`, where that is shorter.
fn relax(
    network: &Network,
    prices: &[u64],
    labels: &mut [Label],
    source: usize,
    target: usize,
    via: usize,
)
    requires source { source < options network.now }
    requires target { target < options network.now }
    requires group { via < size network.now }
    requires prices { length prices.now ≡ options network.now }
    requires low { (o : ℕ) → o < options network.now → at prices.now o ≤ limit network.now }
    requires labels { length labels.old ≡ options network.now }
    requires near { dist labels.old source < far }
    requires uphill { full network.now (at prices.now) via source ≤ full network.now (at prices.now) via target }
    ensures len { length labels.new ≡ length labels.old }
    ensures others { (o : ℕ) → o ≢ target → slice_index_or labels.new o no_label ≡ slice_index_or labels.old o no_label }
    ensures followed { IsFollowed network.now (at prices.now) (Some via) source labels.old labels.new target }
{
    let dist = labels[source].dist + full(network, prices, via, target)
        - full(network, prices, via, source);
    if dist < labels[target].dist {
        let rank = labels[target].rank;
        labels[target] = Label {
            dist,
            source,
            via,
            rank,
        };
    }
}

/// Follows the least arcs from the option that was just settled.
fn settle(network: &Network, prices: &[u64], arcs: &Arcs, labels: &mut [Label], here: usize)
    requires here { here < options network.now }
    requires prices { length prices.now ≡ options network.now }
    requires low { (o : ℕ) → o < options network.now → at prices.now o ≤ limit network.now }
    requires labels { length labels.old ≡ options network.now }
    requires arcs { AreArcs network.now arcs.now }
    requires near { dist labels.old here < far }
    requires uphill { (target group : ℕ) → target < options network.now
        → least_of (options network.now) arcs.now.least here target ≡ Some group
        → IsUphill network.now (at prices.now) here target group }
    ensures len { length labels.new ≡ length labels.old }
    ensures followed { (o : ℕ) → o < options network.now
        → IsFollowed network.now (at prices.now) (least_of (options network.now) arcs.now.least here o) here labels.old labels.new o }
{
    let options = network.options();
    for target in 0..options {
        if let Some(via) = arcs.least(options, here, target) {
            relax(network, prices, labels, here, target, via);
        }
    }
}

#[tactic(auto, using(std::proofs::lemmas::Bool::Decides::nat_tests), unfolding(crate::specs::Searches::dist, crate::specs::Searches::rank))]
/// Whether `option` isn't settled and comes before `best`: it is nearer, or as near and preferred.
fn is_nearer(
    network: &Network,
    loads: &[u32],
    arcs: &Arcs,
    labels: &[Label],
    option: usize,
    best: usize,
) -> bool
    requires option { option < options network.now }
    requires best { best < options network.now }
    requires loads { length loads.now ≡ options network.now }
    requires labels { length labels.now ≡ options network.now }
    ensures open_yet { result ≡ true → options network.now ≤ rank labels.now option }
    ensures nearer { result ≡ true → dist labels.now option ≤ dist labels.now best }
    ensures farther { result ≡ false → options network.now ≤ rank labels.now option
        → dist labels.now best ≤ dist labels.now option }
{
    let label = labels[option];
    let least = labels[best].dist;
    if label.rank < network.options() || least < label.dist {
        return false;
    }
    label.dist < least || is_preferred(network, loads, arcs, option, best)
}

/// Whether `option` is taken before `best`, which is as near: one with room comes first, and then the one to which pins were
/// moved last. Any order would be right. This one settles the fewest options, since most moves go nearly the same way as the one
/// before.
fn is_preferred(network: &Network, loads: &[u32], arcs: &Arcs, option: usize, best: usize) -> bool
    requires few { options network.now ≤ MOST_OPTIONS }
    requires option { option < options network.now }
    requires best { best < options network.now }
    requires loads { length loads.now ≡ options network.now }
{
    let has_room = loads[option] < network.capacity(option);
    let had_room = loads[best] < network.capacity(best);
    if has_room == had_room {
        arcs.is_later(option, best)
    } else {
        has_room
    }
}

/// The nearest option that isn't settled, and the one that is preferred where several are as near.
fn nearest(network: &Network, loads: &[u32], arcs: &Arcs, labels: &[Label]) -> usize
    requires first { options network.now ≤ rank labels.now 0 }
    requires loads { length loads.now ≡ options network.now }
    requires labels { length labels.now ≡ options network.now }
    ensures { IsNearest network.now labels.now result }
{
    let mut best = 0;
    for option in 1..network.options() {
        if is_nearer(network, loads, arcs, labels, option, best) {
            best = option;
        }
    }
    best
}

/// Labels for a search that begins at `start`: no option is settled, and no other one reached.
fn begin(labels: &mut [Label], start: usize)
    requires { start < length labels.old }
    ensures len { length labels.new ≡ length labels.old }
    ensures start { dist labels.new start ≡ 0 }
    ensures far { (o : ℕ) → o < length labels.old → o ≢ start → dist labels.new o ≡ far }
    ensures rank { (o : ℕ) → o < length labels.old → rank labels.new o ≡ length labels.old }
{
    let options = labels.len();
    for label in labels.iter_mut() {
        *label = Label {
            dist: FAR,
            source: 0,
            via: 0,
            rank: options,
        };
    }
    labels[start].dist = 0;
}

/// Finds the nearest option with room, over arcs whose length is what they cost more at the prices.
pub(crate) fn search(
    network: &Network,
    counts: &[u32],
    prices: &[u64],
    loads: &[u32],
    arcs: &mut Arcs,
    labels: &mut [Label],
    start: usize,
) -> usize
    requires laid { IsLaid network.now counts.now prices.now loads.now arcs.old labels.old }
    requires state { IsState network.now (used_of (size network.now) counts.now) (at prices.now) (at loads.now) }
    requires start { start < options network.now }
    requires over { capacity network.now start < at loads.now start }
    requires few { arcs.old.looks + search_looks network.now < 2 ^ 63 }
    ensures found { (settled : ℕ) × IsFound network.now (used_of (size network.now) counts.now) (at prices.now) (at loads.now) labels.new start result settled }
    ensures laid { IsLaid network.now counts.now prices.now loads.now arcs.new labels.new }
    ensures looks { arcs.new.looks ≤ arcs.old.looks + search_looks network.now }
    ensures looks_stay { arcs.old.looks ≤ arcs.new.looks }
{
    begin(labels, start);
    let mut settled = 0;
    let mut here = nearest(network, loads, arcs, labels);
    while network.capacity(here) <= loads[here] {
        labels[here].rank = settled;
        settled += 1;
        arcs.refresh(network, counts, here);
        settle(network, prices, arcs, labels, here);
        here = nearest(network, loads, arcs, labels);
    }
    here
}

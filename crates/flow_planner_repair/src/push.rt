ghost use Rattle.std.specs.Prelude.{◌≡◌, ◌≢◌, ◌+◌, ◌*◌, ◌^◌, ◌<◌, ◌≤◌, ℕ, length};
ghost use Rattle.flow_planner_net.specs.Networks.{IsNetwork, options, size, limit};
ghost use Rattle.flow_planner_net.specs.States.{used_of, at, AllPlaced, IsCheapest};
ghost use Rattle.flow_planner_net.specs.Moves.{IsMoved};
ghost use Rattle.flow_planner_repair.specs.LeastArcs.{AreArcs, AreForgotten};
ghost use Rattle.flow_planner_repair.specs.Searches.{dist, rank, far};
ghost use Rattle.flow_planner_repair.specs.Pushes.{raised, IsTrail, IsTight, IsPushed};

use crate::Arcs;
use crate::forget::forget_move;
use crate::label::Label;
use flow_planner_net::Network;

/// Raises the price of each option that is nearer than `reach`, by as much as it is nearer.
pub(crate) fn raise(network: &Network, prices: &mut [u64], labels: &[Label], reach: u64)
    requires prices { length prices.old ≡ options network.now }
    requires labels { length labels.now ≡ options network.now }
    requires low { (o : ℕ) → o < options network.now → at prices.old o ≤ limit network.now }
    requires reach { reach < far }
    ensures len { length prices.new ≡ length prices.old }
    ensures raised { (o : ℕ) → o < options network.now
        → at prices.new o ≡ raised (limit network.now) reach (dist labels.now o) (at prices.old o) }
{
    for option in 0..network.options() {
        let dist = labels[option].dist;
        if dist < reach {
            prices[option] = network.limit().min(prices[option] + (reach - dist));
        }
    }
}

/// Pushes at most `wanted` pins along the way back from `option` to `start`, as many as its narrowest arc allows, and gives
/// their number. The arcs between options that could have become wrong are forgotten, with a look at each option for each one on
/// the way.
pub(crate) fn push(
    network: &Network,
    labels: &[Label],
    counts: &mut [u32],
    arcs: &mut Arcs,
    start: usize,
    option: usize,
    wanted: u32,
) -> u32
    requires lawful { IsNetwork network.now }
    requires option { option < options network.now }
    requires labels { length labels.now ≡ options network.now }
    requires table { length counts.old ≡ options network.now * size network.now }
    requires arcs { AreArcs network.now arcs.old }
    requires placed { AllPlaced network.now (used_of (size network.now) counts.old) }
    requires trail { IsTrail network.now (used_of (size network.now) counts.old) labels.now start (dist labels.now option) }
    requires some { 0 < wanted }
    requires few { arcs.old.looks + rank labels.now option * options network.now < 2 ^ 63 }
    ensures some { 0 < result }
    ensures within { result ≤ wanted }
    ensures table { length counts.new ≡ length counts.old }
    ensures pushed { IsPushed network.now (used_of (size network.now) counts.old) (used_of (size network.now) counts.new) labels.now start option result }
    ensures cheapest { (price : ℕ → ℕ) → IsTight network.now price labels.now start (dist labels.now option)
        → IsCheapest network.now (used_of (size network.now) counts.old) price
        → IsCheapest network.now (used_of (size network.now) counts.new) price }
    ensures forgotten { AreForgotten network.now (used_of (size network.now) counts.old) (used_of (size network.now) counts.new) arcs.old arcs.new }
    ensures looks { arcs.new.looks ≤ arcs.old.looks + rank labels.now option * options network.now }
    ensures looks_stay { arcs.old.looks ≤ arcs.new.looks }
{
    if option == start {
        return wanted;
    }
    let before = labels[option].source;
    let via = labels[option].via;
    let width = network.size();
    let held = pins_of(width, counts, before, via);
    let most = wanted.min(held);
    let moved = push(network, labels, counts, arcs, start, before, most);
    shift(width, counts, before, option, via, moved);
    forget_move(network, counts, arcs, before, option, via, moved);
    arcs.note_move(option);
    moved
}

/// How many pins of the group stand at the option.
pub(crate) fn pins_of(width: usize, counts: &[u32], option: usize, group: usize) -> u32
    requires { option * width + group < length counts.now }
    ensures { result ≡ used_of width counts.now option group }
{
    counts[option * width + group]
}

/// Moves pins of the group from one option to another.
fn shift(width: usize, counts: &mut [u32], source: usize, target: usize, via: usize, pins: u32)
    requires group { via < width }
    requires source { source * width + via < length counts.old }
    requires target { target * width + via < length counts.old }
    requires apart { source ≢ target }
    requires enough { pins ≤ used_of width counts.old source via }
    requires room { used_of width counts.old target via + pins < 2 ^ 32 }
    ensures len { length counts.new ≡ length counts.old }
    ensures moved { IsMoved width (used_of width counts.old) (used_of width counts.new) source target via pins }
{
    let left = pins_of(width, counts, source, via) - pins;
    counts[source * width + via] = left;
    let more = pins_of(width, counts, target, via) + pins;
    counts[target * width + via] = more;
}

/// Takes so many pins from the load of one option, and adds them to that of another.
pub(crate) fn carry(loads: &mut [u32], source: usize, target: usize, pins: u32)
    requires source { source < length loads.old }
    requires target { target < length loads.old }
    requires apart { source ≢ target }
    requires enough { pins ≤ at loads.old source }
    requires room { at loads.old target + pins < 2 ^ 32 }
    ensures len { length loads.new ≡ length loads.old }
    ensures taken { at loads.new source + pins ≡ at loads.old source }
    ensures given { at loads.new target ≡ at loads.old target + pins }
    ensures others { (o : ℕ) → o ≢ source → o ≢ target → at loads.new o ≡ at loads.old o }
{
    let left = loads[source] - pins;
    loads[source] = left;
    let more = loads[target] + pins;
    loads[target] = more;
}

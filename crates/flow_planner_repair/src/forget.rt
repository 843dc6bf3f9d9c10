//! Which arcs have to be found again after a move of pins.

ghost use Rattle.std.specs.Prelude.{◌≡◌, ◌+◌, ◌*◌, ◌^◌, ◌<◌, ◌≤◌, ℕ, true, false, Some, length};
ghost use Rattle.flow_planner_net.specs.Networks.{options, size, may};
ghost use Rattle.flow_planner_net.specs.States.{used_of};
ghost use Rattle.flow_planner_net.specs.Moves.{IsMoved};
ghost use Rattle.flow_planner_repair.specs.LeastArcs.{AreArcs, AreFewer, AreForgotten, IsNoLess, least_of, is_fresh};

use crate::Arcs;
use crate::push::pins_of;
use flow_planner_net::Network;

/// Forgets the arcs that the move of so many of the group's pins from an option to another could have made wrong. `counts` is
/// the table after it. At most a look at each option.
pub(crate) fn forget_move(
    network: &Network,
    counts: &[u32],
    arcs: &mut Arcs,
    source: usize,
    target: usize,
    via: usize,
    pins: u32,
)
    requires source { source < options network.now }
    requires target { target < options network.now }
    requires group { via < size network.now }
    requires arcs { AreArcs network.now arcs.old }
    requires table { length counts.now ≡ options network.now * size network.now }
    requires few { arcs.old.looks + options network.now < 2 ^ 63 }
    ensures forgotten { (old : ℕ → ℕ → ℕ) → IsMoved (size network.now) old (used_of (size network.now) counts.now) source target via pins
        → AreForgotten network.now old (used_of (size network.now) counts.now) arcs.old arcs.new }
    ensures looks { arcs.new.looks ≤ arcs.old.looks + options network.now }
    ensures looks_stay { arcs.old.looks ≤ arcs.new.looks }
{
    forget_left(network, counts, arcs, source, via);
    forget_come(network, counts, arcs, target, via, pins);
}

/// Forgets the group's arcs from an option where none of its pins is left.
fn forget_left(network: &Network, counts: &[u32], arcs: &mut Arcs, option: usize, group: usize)
    requires option { option < options network.now }
    requires group { group < size network.now }
    requires arcs { AreArcs network.now arcs.old }
    requires table { length counts.now ≡ options network.now * size network.now }
    ensures fewer { AreFewer network.now arcs.old arcs.new }
    ensures looks { arcs.new.looks ≡ arcs.old.looks }
    ensures stale { used_of (size network.now) counts.now option group ≡ 0 → (target : ℕ) → target < options network.now
        → least_of (options network.now) arcs.old.least option target ≡ Some group
        → is_fresh (options network.now) arcs.new.fresh option target ≡ false }
{
    if pins_of(network.size(), counts, option, group) == 0 {
        forget_group(network, arcs, option, group);
    }
}

/// Forgets the arcs from an option to which so many of the group's pins came, where it had none, that are dearer than the
/// group's. A look at each option.
fn forget_come(
    network: &Network,
    counts: &[u32],
    arcs: &mut Arcs,
    option: usize,
    group: usize,
    pins: u32,
)
    requires option { option < options network.now }
    requires group { group < size network.now }
    requires arcs { AreArcs network.now arcs.old }
    requires table { length counts.now ≡ options network.now * size network.now }
    requires few { arcs.old.looks + options network.now < 2 ^ 63 }
    ensures fewer { AreFewer network.now arcs.old arcs.new }
    ensures looks { arcs.new.looks ≤ arcs.old.looks + options network.now }
    ensures looks_stay { arcs.old.looks ≤ arcs.new.looks }
    ensures no_less { used_of (size network.now) counts.now option group ≤ pins → (target : ℕ) → target < options network.now
        → may network.now group target ≡ true → is_fresh (options network.now) arcs.new.fresh option target ≡ true
        → IsNoLess network.now group option target (least_of (options network.now) arcs.old.least option target) }
{
    if pins_of(network.size(), counts, option, group) <= pins {
        forget_dearer(network, arcs, option, group);
    }
}

/// Forgets the arcs from this option that are the group's.
fn forget_group(network: &Network, arcs: &mut Arcs, option: usize, group: usize)
    requires option { option < options network.now }
    requires arcs { AreArcs network.now arcs.old }
    ensures fewer { AreFewer network.now arcs.old arcs.new }
    ensures looks { arcs.new.looks ≡ arcs.old.looks }
    ensures stale { (target : ℕ) → target < options network.now
        → least_of (options network.now) arcs.old.least option target ≡ Some group
        → is_fresh (options network.now) arcs.new.fresh option target ≡ false }
{
    let width = network.options();
    for target in 0..width {
        if is_of(arcs, width, option, target, group) {
            arcs.set_fresh(width, option, target, false);
        }
    }
}

/// Whether the arc between two options is the group's.
fn is_of(arcs: &Arcs, width: usize, source: usize, target: usize, group: usize) -> bool
    requires { source * width + target < length arcs.now.least }
    ensures { least_of width arcs.now.least source target ≡ Some group → result ≡ true }
{
    match arcs.least(width, source, target) {
        Some(best) => best == group,
        None => false,
    }
}

/// Forgets the arcs from this option that are dearer than the group's. A look at each option.
fn forget_dearer(network: &Network, arcs: &mut Arcs, option: usize, group: usize)
    requires option { option < options network.now }
    requires group { group < size network.now }
    requires arcs { AreArcs network.now arcs.old }
    requires few { arcs.old.looks + options network.now < 2 ^ 63 }
    ensures fewer { AreFewer network.now arcs.old arcs.new }
    ensures looks { arcs.new.looks ≡ arcs.old.looks + options network.now }
    ensures no_less { (target : ℕ) → target < options network.now → may network.now group target ≡ true
        → is_fresh (options network.now) arcs.new.fresh option target ≡ true
        → IsNoLess network.now group option target (least_of (options network.now) arcs.old.least option target) }
{
    let width = network.options();
    for target in 0..width {
        if arcs.beats(network, option, target, group) {
            arcs.set_fresh(width, option, target, false);
        }
    }
}

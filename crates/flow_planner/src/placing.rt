ghost use Rattle.std.specs.Prelude.{◌≡◌, ◌≢◌, ◌+◌, ◌*◌, ◌<◌, ◌≤◌, ℕ, length};
ghost use Rattle.flow_planner_net.specs.Networks.{options, size, count};
ghost use Rattle.flow_planner_net.specs.States.{used_of, at, IsState};
ghost use Rattle.flow_planner.specs.Fillings.{IsHome, IsFilling, IsRoomy, placed_of, waiting};

use crate::homes::{home, own, waiting};
use crate::spread::Spread;
use crate::spreading::spread_out;
use flow_planner_net::Network;
use lb_types_pins::Group;

/// Puts so many pins of the group at the option.
pub(crate) fn put(
    network: &Network,
    counts: &mut [u32],
    loads: &mut [u32],
    group: usize,
    option: usize,
    pins: u32,
)
    requires roomy { IsRoomy network.now counts.old loads.old }
    requires filling { IsFilling network.now (used_of (size network.now) counts.old) (at loads.old) }
    requires group { group < size network.now }
    requires option { option < options network.now }
    requires home { 0 < pins → IsHome network.now group option }
    requires few { placed_of network.now (used_of (size network.now) counts.old) group + pins ≤ count network.now group }
    ensures roomy { IsRoomy network.now counts.new loads.new }
    ensures filling { IsFilling network.now (used_of (size network.now) counts.new) (at loads.new) }
    ensures placed { placed_of network.now (used_of (size network.now) counts.new) group
        ≡ placed_of network.now (used_of (size network.now) counts.old) group + pins }
    ensures others { (g : ℕ) → g < size network.now → g ≢ group
        → placed_of network.now (used_of (size network.now) counts.new) g
        ≡ placed_of network.now (used_of (size network.now) counts.old) g }
{
    let width = network.size();
    let more = counts[option * width + group] + pins;
    counts[option * width + group] = more;
    let load = loads[option] + pins;
    loads[option] = load;
}

/// Leaves the group's pins where they are if they may stay, over the room there where it must be.
fn seat(network: &Network, groups: &[Group], counts: &mut [u32], loads: &mut [u32], group: usize)
    requires groups { groups.now ≡ network.now.groups }
    requires roomy { IsRoomy network.now counts.old loads.old }
    requires filling { IsFilling network.now (used_of (size network.now) counts.old) (at loads.old) }
    requires group { group < size network.now }
    requires none { placed_of network.now (used_of (size network.now) counts.old) group ≡ 0 }
    ensures roomy { IsRoomy network.now counts.new loads.new }
    ensures filling { IsFilling network.now (used_of (size network.now) counts.new) (at loads.new) }
    ensures placed { placed_of network.now (used_of (size network.now) counts.new) group + waiting network.now group
        ≡ count network.now group }
    ensures others { (g : ℕ) → g < size network.now → g ≢ group
        → placed_of network.now (used_of (size network.now) counts.new) g
        ≡ placed_of network.now (used_of (size network.now) counts.old) g }
{
    let Some(option) = own(network, groups, group) else {
        return;
    };
    put(network, counts, loads, group, option, network.count(group));
}

/// Leaves all pins where they are that may stay.
fn seat_all(network: &Network, groups: &[Group], counts: &mut [u32], loads: &mut [u32])
    requires groups { groups.now ≡ network.now.groups }
    requires roomy { IsRoomy network.now counts.old loads.old }
    requires empty { (o g : ℕ) → o < options network.now → g < size network.now → used_of (size network.now) counts.old o g ≡ 0 }
    requires idle { (o : ℕ) → o < options network.now → at loads.old o ≡ 0 }
    ensures roomy { IsRoomy network.now counts.new loads.new }
    ensures filling { IsFilling network.now (used_of (size network.now) counts.new) (at loads.new) }
    ensures placed { (g : ℕ) → g < size network.now
        → placed_of network.now (used_of (size network.now) counts.new) g + waiting network.now g ≡ count network.now g }
{
    for group in 0..network.size() {
        seat(network, groups, counts, loads, group);
    }
}

/// Places the pins of the group that can't stay where they are. They go to options of least cost as long as there is
/// room, and the others to the first of these options, over its room.
fn place(
    network: &Network,
    groups: &[Group],
    counts: &mut [u32],
    loads: &mut [u32],
    spread: Spread,
    group: usize,
)
    requires groups { groups.now ≡ network.now.groups }
    requires roomy { IsRoomy network.now counts.old loads.old }
    requires filling { IsFilling network.now (used_of (size network.now) counts.old) (at loads.old) }
    requires group { group < size network.now }
    requires placed { placed_of network.now (used_of (size network.now) counts.old) group + waiting network.now group
        ≡ count network.now group }
    ensures roomy { IsRoomy network.now counts.new loads.new }
    ensures filling { IsFilling network.now (used_of (size network.now) counts.new) (at loads.new) }
    ensures placed { placed_of network.now (used_of (size network.now) counts.new) group ≡ count network.now group }
    ensures others { (g : ℕ) → g < size network.now → g ≢ group
        → placed_of network.now (used_of (size network.now) counts.new) g
        ≡ placed_of network.now (used_of (size network.now) counts.old) g }
{
    let pins = waiting(network, groups, group);
    if pins == 0 {
        return;
    }
    let home = home(network, groups, group);
    let spread = spread.over(network, loads, groups[group].kind.permitted, pins);
    let left = spread_out(network, counts, loads, group, home, spread, pins);
    put(network, counts, loads, group, home, left);
}

/// Places all pins, where none is placed yet: first those that may stay where they are, since they cost nothing there. No push and no
/// look.
///
/// Three walks over the groups. For each group that can't stay, also a walk over the options after its first one for each server that
/// it is spread over, and a few more.
pub(crate) fn start(network: &Network, groups: &[Group], counts: &mut [u32], loads: &mut [u32])
    requires groups { groups.now ≡ network.now.groups }
    requires roomy { IsRoomy network.now counts.old loads.old }
    requires empty { (o g : ℕ) → o < options network.now → g < size network.now → used_of (size network.now) counts.old o g ≡ 0 }
    requires idle { (o : ℕ) → o < options network.now → at loads.old o ≡ 0 }
    ensures roomy { IsRoomy network.now counts.new loads.new }
    ensures state { IsState network.now (used_of (size network.now) counts.new) (λ option. 0) (at loads.new) }
{
    seat_all(network, groups, counts, loads);
    let spread = Spread::of(network, groups, loads);
    for group in 0..network.size() {
        place(network, groups, counts, loads, spread, group);
    }
}

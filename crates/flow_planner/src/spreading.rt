ghost use Rattle.std.specs.Prelude.{◌≡◌, ◌≢◌, ◌+◌, ◌*◌, ◌<◌, ◌≤◌, ℕ, true, length};
ghost use Rattle.flow_planner_net.specs.Networks.{options, size, count};
ghost use Rattle.flow_planner_net.specs.States.{used_of, at};
ghost use Rattle.flow_planner.specs.Fillings.{IsHome, IsFilling, IsRoomy, placed_of};

use crate::homes::is_home;
use crate::level::Level;
use crate::placing::put;
use crate::spread::Spread;
use flow_planner_net::Network;

/// How many more pins the option has at the level, if it costs the group's pins as little as `home`; else none.
fn room_for(
    network: &Network,
    loads: &[u32],
    group: usize,
    option: usize,
    home: usize,
    level: Level,
) -> u32
    requires group { group < size network.now }
    requires option { option < options network.now }
    requires home { IsHome network.now group home }
    requires loads { length loads.now ≡ options network.now }
    ensures { 0 < result → IsHome network.now group option }
{
    let room = level.room(loads[option], network.capacity(option));
    if room > 0 && is_home(network, group, option, home) {
        room
    } else {
        0
    }
}

/// Fills servers up to the level with pins of the group, one server after the other, and gives how many pins are left. The
/// servers are those that cost as little as `home`, from there on. One walk over the options.
fn fill(
    network: &Network,
    counts: &mut [u32],
    loads: &mut [u32],
    group: usize,
    home: usize,
    level: Level,
    pins: u32,
) -> u32
    requires roomy { IsRoomy network.now counts.old loads.old }
    requires filling { IsFilling network.now (used_of (size network.now) counts.old) (at loads.old) }
    requires group { group < size network.now }
    requires home { IsHome network.now group home }
    requires few { placed_of network.now (used_of (size network.now) counts.old) group + pins ≤ count network.now group }
    ensures roomy { IsRoomy network.now counts.new loads.new }
    ensures filling { IsFilling network.now (used_of (size network.now) counts.new) (at loads.new) }
    ensures placed { placed_of network.now (used_of (size network.now) counts.new) group + result
        ≡ placed_of network.now (used_of (size network.now) counts.old) group + pins }
    ensures others { (g : ℕ) → g < size network.now → g ≢ group
        → placed_of network.now (used_of (size network.now) counts.new) g
        ≡ placed_of network.now (used_of (size network.now) counts.old) g }
{
    let mut left = pins;
    for option in home..network.options() {
        if left == 0 {
            return 0;
        }
        let room = room_for(network, loads, group, option, home, level);
        let pins = left.min(room);
        if pins > 0 {
            put(network, counts, loads, group, option, pins);
            left -= pins;
        }
    }
    left
}

/// Deals pins of the group out to the servers that cost as little as `home`, from there on. Each goes to the one with the least share
/// of its capacity in use. Gives how many are left when there is no room. One walk over the options for each share.
fn deal(
    network: &Network,
    counts: &mut [u32],
    loads: &mut [u32],
    group: usize,
    home: usize,
    spread: Spread,
    pins: u32,
) -> u32
    requires roomy { IsRoomy network.now counts.old loads.old }
    requires filling { IsFilling network.now (used_of (size network.now) counts.old) (at loads.old) }
    requires group { group < size network.now }
    requires home { IsHome network.now group home }
    requires few { placed_of network.now (used_of (size network.now) counts.old) group + pins ≤ count network.now group }
    ensures roomy { IsRoomy network.now counts.new loads.new }
    ensures filling { IsFilling network.now (used_of (size network.now) counts.new) (at loads.new) }
    ensures placed { placed_of network.now (used_of (size network.now) counts.new) group + result
        ≡ placed_of network.now (used_of (size network.now) counts.old) group + pins }
    ensures others { (g : ℕ) → g < size network.now → g ≢ group
        → placed_of network.now (used_of (size network.now) counts.new) g
        ≡ placed_of network.now (used_of (size network.now) counts.old) g }
{
    let mut left = pins;
    while left > 0 {
        let option = emptiest(network, loads, group, home);
        let share = spread.share(loads[option], network.capacity(option));
        if share == 0 {
            return left;
        }
        let pins = left.min(share);
        put(network, counts, loads, group, option, pins);
        left -= pins;
    }
    0
}

/// Puts pins of the group at servers with room that cost as little as `home`, from there on, and gives how many are left.
pub(crate) fn spread_out(
    network: &Network,
    counts: &mut [u32],
    loads: &mut [u32],
    group: usize,
    home: usize,
    spread: Spread,
    pins: u32,
) -> u32
    requires roomy { IsRoomy network.now counts.old loads.old }
    requires filling { IsFilling network.now (used_of (size network.now) counts.old) (at loads.old) }
    requires group { group < size network.now }
    requires home { IsHome network.now group home }
    requires few { placed_of network.now (used_of (size network.now) counts.old) group + pins ≤ count network.now group }
    ensures roomy { IsRoomy network.now counts.new loads.new }
    ensures filling { IsFilling network.now (used_of (size network.now) counts.new) (at loads.new) }
    ensures placed { placed_of network.now (used_of (size network.now) counts.new) group + result
        ≡ placed_of network.now (used_of (size network.now) counts.old) group + pins }
    ensures others { (g : ℕ) → g < size network.now → g ≢ group
        → placed_of network.now (used_of (size network.now) counts.new) g
        ≡ placed_of network.now (used_of (size network.now) counts.old) g }
{
    if !spread.is_tight() {
        return deal(network, counts, loads, group, home, spread, pins);
    }
    // One server after the other: what is left of the little room then lies together, and later pushes are fewer.
    let left = fill(network, counts, loads, group, home, spread.level(), pins);
    fill(network, counts, loads, group, home, Level::full(), left)
}

/// Of the options that cost as little as `home`, from there on, the first one with room that has the least share of it in use. It is
/// `home` where none has room. One walk over the options.
fn emptiest(network: &Network, loads: &[u32], group: usize, home: usize) -> usize
    requires group { group < size network.now }
    requires home { IsHome network.now group home }
    requires loads { length loads.now ≡ options network.now }
    ensures { IsHome network.now group result }
{
    let mut best = home;
    for option in home..network.options() {
        if is_emptier(network, loads, option, best) && is_home(network, group, option, home) {
            best = option;
        }
    }
    best
}

/// Whether `option` has room, and less of it in use than `best`, by its share.
fn is_emptier(network: &Network, loads: &[u32], option: usize, best: usize) -> bool
    requires option { option < options network.now }
    requires best { best < options network.now }
    requires loads { length loads.now ≡ options network.now }
{
    let (load, capacity) = (loads[option], network.capacity(option));
    let (least, room) = (loads[best], network.capacity(best));
    if capacity <= load || room <= least {
        return load < capacity;
    }
    u64::from(load) * u64::from(room) < u64::from(least) * u64::from(capacity)
}

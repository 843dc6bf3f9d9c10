ghost use Rattle.std.specs.Prelude.{◌≡◌, ◌≢◌, ◌+◌, ◌*◌, ◌^◌, ◌<◌, ◌≤◌, ℕ, length, slice_index_or, true, false, IfOk, None};
ghost use Rattle.flow_planner_net.specs.Networks.{options, size, may};
ghost use Rattle.flow_planner_net.specs.States.{used_of};
ghost use Rattle.flow_planner_repair.specs.LeastArcs.{ArcsParts, no_arcs, AreArcs, AreKept, AreLeast, AreFound, AreOfGroups, IsLeast, KnownAreSame, OthersAreSame, IsMarked, IsDropped, IsNoLess, AreOptions, StaleAreListed, least_of, is_fresh};

use flow_planner_net::{MOST_OPTIONS, Network};
use std::alloc::{AllocError, Global};
use std::marker::Model;

/// How many groups are passed over together where none of them has pins at an option.
const BLOCK: usize = 64;

/// The least arcs between options, kept from one search to the next, and the count of looks.
///
/// A look is one test of moving one group's pins from an option to another. The arc between two options is found again only
/// after a move of pins that could have made another group's less.
///
/// It is also remembered to which options pins were moved last: the next way to an option with room is likely to lead through
/// these too. No contract speaks of that, since it only decides which of equally near options is settled first.
#[derive(Drop)]
pub struct Arcs {
    least: Vec<Option<usize>>,
    fresh: Vec<bool>,
    looks: u64,
    /// How many moves of pins were made, from 0 again after 2^64.
    moves: u64,
    /// For each option the number of the last move of pins to it, and 0 where there was none.
    latest: [u64; MOST_OPTIONS],
}

impl Model for Arcs {
    ghost Value = { ArcsParts };

    ghost view = { λ a. record { least = a.least.items; fresh = a.fresh.items; looks = a.looks } };
}

impl Arcs {
    /// No arcs between so many options, and no move. Memory for 17 bytes for each two options.
    pub fn new(alloc: Global, options: usize) -> Result<Self, AllocError>
        requires { options ≤ MOST_OPTIONS }
        ensures { IfOk result (λ arcs. arcs ≡ no_arcs options) }
    {
        Ok(Arcs {
            least: vec![in alloc; None; options * options]?,
            fresh: vec![in alloc; false; options * options]?,
            looks: 0,
            moves: 0,
            latest: [0; MOST_OPTIONS],
        })
    }

    /// How many looks were made.
    pub fn looks(&self) -> u64
        ensures { result ≡ self.now.looks }
    {
        self.looks
    }

    /// Remembers that pins were moved to the option.
    pub(crate) fn note_move(&mut self, option: usize)
        requires { option < MOST_OPTIONS }
        ensures { self.new ≡ self.old }
    {
        self.moves = self.moves.wrapping_add(1);
        self.latest[option] = self.moves;
    }

    /// Whether pins were moved to the option later than to the other one.
    pub(crate) fn is_later(&self, option: usize, other: usize) -> bool
        requires option { option < MOST_OPTIONS }
        requires other { other < MOST_OPTIONS }
    {
        self.latest[other] < self.latest[option]
    }

    /// The group whose pins cost the least more at `target` than at `source`.
    pub fn least(&self, width: usize, source: usize, target: usize) -> Option<usize>
        requires { source * width + target < length self.now.least }
        ensures { result ≡ least_of width self.now.least source target }
    {
        self.least[source * width + target]
    }

    /// Whether the arc between two options has to be found again.
    fn is_stale(&self, width: usize, source: usize, target: usize) -> bool
        requires { source * width + target < length self.now.fresh }
        ensures stale { result ≡ true → is_fresh width self.now.fresh source target ≡ false }
        ensures fresh { result ≡ false → is_fresh width self.now.fresh source target ≡ true }
    {
        !self.fresh[source * width + target]
    }

    /// Whether no arc from this option has to be found again.
    fn are_fresh(&self, width: usize, source: usize) -> bool
        requires source { source < width }
        requires marks { length self.now.fresh ≡ width * width }
        ensures { result ≡ true → (target : ℕ) → target < width → is_fresh width self.now.fresh source target ≡ true }
    {
        for target in 0..width {
            if self.is_stale(width, source, target) {
                return false;
            }
        }
        true
    }

    /// Says whether the arc between two options is right.
    pub(crate) fn set_fresh(&mut self, width: usize, source: usize, target: usize, is_right: bool)
        requires target { target < width }
        requires within { source * width + target < length self.old.fresh }
        ensures least { self.new.least ≡ self.old.least }
        ensures looks { self.new.looks ≡ self.old.looks }
        ensures marks { length self.new.fresh ≡ length self.old.fresh }
        ensures set { IsMarked width self.old.fresh self.new.fresh source target is_right }
    {
        self.fresh[source * width + target] = is_right;
    }

    /// Finds the least arcs from this option, where they aren't known. `counts` has the pins by option and group.
    pub fn refresh(&mut self, network: &Network, counts: &[u32], source: usize)
        requires source { source < options network.now }
        requires arcs { AreArcs network.now self.old }
        requires table { length counts.now ≡ options network.now * size network.now }
        requires kept { AreKept network.now (used_of (size network.now) counts.now) self.old }
        requires few { self.old.looks + size network.now * options network.now < 2 ^ 63 }
        ensures arcs { AreArcs network.now self.new }
        ensures kept { AreKept network.now (used_of (size network.now) counts.now) self.new }
        ensures found { AreLeast network.now (used_of (size network.now) counts.now) (size network.now) source self.new.least }
        ensures looks { self.new.looks ≤ self.old.looks + size network.now * options network.now }
        ensures looks_stay { self.old.looks ≤ self.new.looks }
    {
        let width = network.options();
        if self.are_fresh(width, source) {
            return;
        }
        let mut targets = [0; MOST_OPTIONS];
        let stale = self.stale_targets(width, source, &mut targets);
        self.clear(width, source);
        self.find(network, counts, source, &targets[..stale]);
        self.keep(width, source);
    }

    /// Lists the options to which the arcs from this one aren't right, and gives their number.
    fn stale_targets(&self, width: usize, source: usize, targets: &mut [usize]) -> usize
        requires source { source < width }
        requires marks { length self.now.fresh ≡ width * width }
        requires room { width ≤ length targets.old }
        ensures len { length targets.new ≡ length targets.old }
        ensures few { result ≤ width }
        ensures options { AreOptions width targets.new result }
        ensures listed { StaleAreListed width self.now.fresh source targets.new result }
    {
        let mut stale = 0;
        for target in 0..width {
            if self.is_stale(width, source, target) {
                targets[stale] = target;
                stale += 1;
            }
        }
        stale
    }

    /// Drops the arcs from this option that aren't right.
    fn clear(&mut self, width: usize, source: usize)
        requires source { source < width }
        requires pairs { length self.old.least ≡ width * width }
        requires marks { length self.old.fresh ≡ width * width }
        ensures none { (target : ℕ) → target < width → is_fresh width self.old.fresh source target ≡ false
            → least_of width self.new.least source target ≡ None }
        ensures known { KnownAreSame width source self.old.fresh self.old.least self.new.least }
        ensures others { OthersAreSame width source self.old.least self.new.least }
        ensures pairs { length self.new.least ≡ width * width }
        ensures fresh { self.new.fresh ≡ self.old.fresh }
        ensures looks { self.new.looks ≡ self.old.looks }
    {
        for target in 0..width {
            if self.is_stale(width, source, target) {
                self.drop_arc(width, source, target);
            }
        }
    }

    /// No arc is known between two options.
    fn drop_arc(&mut self, width: usize, source: usize, target: usize)
        requires target { target < width }
        requires within { source * width + target < length self.old.least }
        ensures dropped { IsDropped width self.old.least self.new.least source target }
        ensures pairs { length self.new.least ≡ length self.old.least }
        ensures fresh { self.new.fresh ≡ self.old.fresh }
        ensures looks { self.new.looks ≡ self.old.looks }
    {
        self.least[source * width + target] = None;
    }

    /// Says of each arc from this option that it is right.
    fn keep(&mut self, width: usize, source: usize)
        requires source { source < width }
        requires marks { length self.old.fresh ≡ width * width }
        ensures least { self.new.least ≡ self.old.least }
        ensures looks { self.new.looks ≡ self.old.looks }
        ensures marks { length self.new.fresh ≡ width * width }
        ensures others { (o target : ℕ) → target < width → o ≢ source
            → is_fresh width self.new.fresh o target ≡ is_fresh width self.old.fresh o target }
    {
        for target in 0..width {
            self.set_fresh(width, source, target, true);
        }
    }

    /// Finds the arcs from this option that aren't right, where none of them is known. `targets` has the options to which they
    /// lead.
    fn find(&mut self, network: &Network, counts: &[u32], source: usize, targets: &[usize])
        requires source { source < options network.now }
        requires targets { AreOptions (options network.now) targets.now (length targets.now) }
        requires listed { StaleAreListed (options network.now) self.old.fresh source targets.now (length targets.now) }
        requires short { length targets.now ≤ options network.now }
        requires arcs { AreArcs network.now self.old }
        requires table { length counts.now ≡ options network.now * size network.now }
        requires groups { AreOfGroups network.now source self.old.least }
        requires none { (target : ℕ) → target < options network.now → is_fresh (options network.now) self.old.fresh source target ≡ false
            → least_of (options network.now) self.old.least source target ≡ None }
        requires few { self.old.looks + size network.now * options network.now < 2 ^ 63 }
        ensures arcs { AreArcs network.now self.new }
        ensures found { AreFound network.now (used_of (size network.now) counts.now) (size network.now) source self.new.least self.old.fresh }
        ensures known { KnownAreSame (options network.now) source self.old.fresh self.old.least self.new.least }
        ensures others { OthersAreSame (options network.now) source self.old.least self.new.least }
        ensures fresh { self.new.fresh ≡ self.old.fresh }
        ensures looks { self.new.looks ≤ self.old.looks + size network.now * options network.now }
        ensures looks_stay { self.old.looks ≤ self.new.looks }
    {
        let size = network.size();
        let mut from = 0;
        while from < size {
            let many = BLOCK.min(size - from);
            let place = source * size + from;
            if has_pins(&counts[place..place + many]) {
                self.find_among(network, counts, source, from, many, targets);
            }
            from += many;
        }
    }

    /// The same for so many groups from this one on, where the arcs that were found are the least of those before it.
    fn find_among(
        &mut self,
        network: &Network,
        counts: &[u32],
        source: usize,
        from: usize,
        many: usize,
        targets: &[usize],
    )
        requires source { source < options network.now }
        requires within { from + many ≤ size network.now }
        requires targets { AreOptions (options network.now) targets.now (length targets.now) }
        requires listed { StaleAreListed (options network.now) self.old.fresh source targets.now (length targets.now) }
        requires short { length targets.now ≤ options network.now }
        requires arcs { AreArcs network.now self.old }
        requires table { length counts.now ≡ options network.now * size network.now }
        requires groups { AreOfGroups network.now source self.old.least }
        requires few { self.old.looks + many * options network.now < 2 ^ 63 }
        ensures arcs { AreArcs network.now self.new }
        ensures groups { AreOfGroups network.now source self.new.least }
        ensures found { AreFound network.now (used_of (size network.now) counts.now) from source self.old.least self.old.fresh
            → AreFound network.now (used_of (size network.now) counts.now) (from + many) source self.new.least self.old.fresh }
        ensures known { KnownAreSame (options network.now) source self.old.fresh self.old.least self.new.least }
        ensures others { OthersAreSame (options network.now) source self.old.least self.new.least }
        ensures fresh { self.new.fresh ≡ self.old.fresh }
        ensures looks { self.new.looks ≤ self.old.looks + many * options network.now }
        ensures looks_stay { self.old.looks ≤ self.new.looks }
    {
        let size = network.size();
        for step in 0..many {
            let group = from + step;
            if counts[source * size + group] > 0 {
                self.offer(network, source, group, targets);
            }
        }
    }

    /// Looks at the group's arcs from this option, where it has pins, to those of `targets`, and keeps those that are less than
    /// the ones known.
    fn offer(&mut self, network: &Network, source: usize, group: usize, targets: &[usize])
        requires source { source < options network.now }
        requires group { group < size network.now }
        requires targets { AreOptions (options network.now) targets.now (length targets.now) }
        requires listed { StaleAreListed (options network.now) self.old.fresh source targets.now (length targets.now) }
        requires short { length targets.now ≤ options network.now }
        requires arcs { AreArcs network.now self.old }
        requires groups { AreOfGroups network.now source self.old.least }
        requires few { self.old.looks + options network.now < 2 ^ 63 }
        ensures arcs { AreArcs network.now self.new }
        ensures groups { AreOfGroups network.now source self.new.least }
        ensures others { OthersAreSame (options network.now) source self.old.least self.new.least }
        ensures known { KnownAreSame (options network.now) source self.old.fresh self.old.least self.new.least }
        ensures fresh { self.new.fresh ≡ self.old.fresh }
        ensures looks { self.new.looks ≤ self.old.looks + options network.now }
        ensures looks_stay { self.old.looks ≤ self.new.looks }
        ensures found { (used : ℕ → ℕ → ℕ) → 0 < used source group → AreFound network.now used group source self.old.least self.old.fresh
            → AreFound network.now used (group + 1) source self.new.least self.old.fresh }
    {
        for target in targets {
            self.offer_to(network, source, *target, group);
        }
    }

    /// Looks at the group's arc between two options, if the one known isn't right, and keeps it if it is less.
    fn offer_to(&mut self, network: &Network, source: usize, target: usize, group: usize)
        requires source { source < options network.now }
        requires target { target < options network.now }
        requires group { group < size network.now }
        requires arcs { AreArcs network.now self.old }
        requires groups { AreOfGroups network.now source self.old.least }
        requires few { self.old.looks < 2 ^ 63 }
        ensures arcs { AreArcs network.now self.new }
        ensures groups { AreOfGroups network.now source self.new.least }
        ensures others { OthersAreSame (options network.now) source self.old.least self.new.least }
        ensures other_targets { (k : ℕ) → k < options network.now → k ≢ target
            → least_of (options network.now) self.new.least source k ≡ least_of (options network.now) self.old.least source k }
        ensures known { is_fresh (options network.now) self.old.fresh source target ≡ true
            → least_of (options network.now) self.new.least source target ≡ least_of (options network.now) self.old.least source target }
        ensures fresh { self.new.fresh ≡ self.old.fresh }
        ensures looks { self.new.looks ≤ self.old.looks + 1 }
        ensures looks_stay { self.old.looks ≤ self.new.looks }
        ensures found { is_fresh (options network.now) self.old.fresh source target ≡ false → (used : ℕ → ℕ → ℕ) → 0 < used source group
            → IsLeast network.now used group source target (least_of (options network.now) self.old.least source target)
            → IsLeast network.now used (group + 1) source target (least_of (options network.now) self.new.least source target) }
    {
        if self.is_stale(network.options(), source, target) {
            if self.look(network, group, target) {
                self.improve(network, source, target, group);
            }
        }
    }

    /// Keeps the group's arc where it is less than the one known.
    fn improve(&mut self, network: &Network, source: usize, target: usize, group: usize)
        requires source { source < options network.now }
        requires target { target < options network.now }
        requires group { group < size network.now }
        requires allowed { may network.now group target ≡ true }
        requires arcs { AreArcs network.now self.old }
        requires groups { AreOfGroups network.now source self.old.least }
        ensures arcs { AreArcs network.now self.new }
        ensures groups { AreOfGroups network.now source self.new.least }
        ensures others { OthersAreSame (options network.now) source self.old.least self.new.least }
        ensures other_targets { (k : ℕ) → k < options network.now → k ≢ target
            → least_of (options network.now) self.new.least source k ≡ least_of (options network.now) self.old.least source k }
        ensures fresh { self.new.fresh ≡ self.old.fresh }
        ensures looks { self.new.looks ≡ self.old.looks }
        ensures found { (used : ℕ → ℕ → ℕ) → 0 < used source group
            → IsLeast network.now used group source target (least_of (options network.now) self.old.least source target)
            → IsLeast network.now used (group + 1) source target (least_of (options network.now) self.new.least source target) }
    {
        let width = network.options();
        if let Some(best) = self.least(width, source, target) {
            if network.cost(best, target) + network.cost(group, source)
                <= network.cost(group, target) + network.cost(best, source)
            {
                return;
            }
        }
        self.least[source * width + target] = Some(group);
    }

    /// Counts a look, and says whether the group's pins may go to the option, for less than those of the arc that is known.
    pub(crate) fn beats(
        &mut self,
        network: &Network,
        source: usize,
        target: usize,
        group: usize,
    ) -> bool
        requires source { source < options network.now }
        requires target { target < options network.now }
        requires group { group < size network.now }
        requires arcs { AreArcs network.now self.old }
        requires few { self.old.looks < 2 ^ 63 }
        ensures no_less { result ≡ false → may network.now group target ≡ true
            → IsNoLess network.now group source target (least_of (options network.now) self.old.least source target) }
        ensures counted { self.new.looks ≡ self.old.looks + 1 }
        ensures least { self.new.least ≡ self.old.least }
        ensures fresh { self.new.fresh ≡ self.old.fresh }
    {
        if !self.look(network, group, target) {
            return false;
        }
        self.is_less(network, source, target, group)
    }

    /// Whether the group's arc costs less than the one that is known. One that isn't right may be of any group.
    fn is_less(&self, network: &Network, source: usize, target: usize, group: usize) -> bool
        requires source { source < options network.now }
        requires target { target < options network.now }
        requires group { group < size network.now }
        requires arcs { AreArcs network.now self.now }
        ensures { result ≡ false → IsNoLess network.now group source target (least_of (options network.now) self.now.least source target) }
    {
        let Some(best) = self.least(network.options(), source, target) else {
            return true;
        };
        if network.size() <= best {
            return true;
        }
        network.cost(group, target) + network.cost(best, source)
            < network.cost(best, target) + network.cost(group, source)
    }

    /// Counts a look, and says whether pins of the group may go to the option.
    pub(crate) fn look(&mut self, network: &Network, group: usize, target: usize) -> bool
        requires group { group < size network.now }
        requires target { target < options network.now }
        requires few { self.old.looks < 2 ^ 63 }
        ensures exact { result ≡ may network.now group target }
        ensures counted { self.new.looks ≡ self.old.looks + 1 }
        ensures least { self.new.least ≡ self.old.least }
        ensures fresh { self.new.fresh ≡ self.old.fresh }
    {
        self.looks += 1;
        network.may(group, target)
    }
}

/// Whether one of the counts isn't 0. Bits are collected without a branch, which a processor does for many counts at once.
fn has_pins(counts: &[u32]) -> bool
    ensures { result ≡ false → (i : ℕ) → i < length counts.now → slice_index_or counts.now i 0 ≤ 0 }
{
    let mut bits = 0;
    for pins in counts {
        bits |= *pins;
    }
    bits != 0
}

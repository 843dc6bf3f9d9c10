//! Brute force: the check of a plan against the definition of best, on small views.
//!
//! The enumerations leave out what makes no difference to a sheet, and no other case:
//! - the order of the pins (the kinds rise);
//! - the order of the servers (the capacities rise, and the servers that aren't usable come last);
//! - two wishes of a pin with the same permitted servers;
//! - capacities above the number of pins.
//!
//! Larger views, each assignment at prices that show the best one, are tried by `small_farms`, which `bench` runs.

use crate::small_farm::{Farm, SmallPin, Spot, digits};
use cert_check::{CheckFault, check};
use dual_cert::Sheet;
use pin_groups::group;
use pin_groups_spread::spread_best;
use pin_set::{Score, View, score};
use std::alloc::{AllocError, Global};
use std::process::Abort;
use std::test::Fail;

/// A farm's view and sheet.
#[derive(Clone, Copy)]
struct Case<'a> {
    farm: Farm<'a>,
    view: &'a View,
    sheet: &'a Sheet,
}

/// How well an assignment does, as a number: fewer pins without a server come first, then less cost, which is below 1000.
fn rank(score: Score) -> u64 {
    score
        .unplaced
        .saturating_mul(1000)
        .saturating_add(score.cost)
}

/// How many lists of `len` digits there are.
fn lists(base: u64, len: usize) -> u64 {
    let mut count = 1u64;
    for _ in 0..len {
        count = count.saturating_mul(base);
    }
    count
}

fn is_rising(digits: &[u8]) -> bool {
    let mut last = 0;
    for digit in digits {
        if *digit < last {
            return false;
        }
        last = *digit;
    }
    true
}

impl Case<'_> {
    /// How many options a pin has, those that it may not take among them.
    fn options(self) -> u64 {
        (self.farm.capacities.len() as u64).saturating_add(1)
    }

    /// How many assignments of the pins there are, lawful or not.
    fn assignments(self) -> u64 {
        lists(self.options(), self.farm.pins.len())
    }

    fn spots(self, alloc: Global, assignment: u64) -> Result<Vec<Spot>, AllocError> {
        digits(alloc, assignment, self.options(), self.farm.pins.len())
    }

    /// Prices go from 0 to U + 2.
    fn prices(self) -> u64 {
        self.farm.unplaced_cost().saturating_add(3)
    }

    /// How many lists of prices there are. Servers that aren't usable have price 0.
    fn price_codes(self) -> u64 {
        let mut codes = 1u64;
        for capacity in self.farm.capacities {
            if capacity.is_some() {
                codes = codes.saturating_mul(self.prices());
            }
        }
        codes
    }

    /// The rank of the best assignments, and the first of them.
    fn best(self, alloc: Global) -> Result<(u64, u64), AllocError> {
        let mut best = (u64::MAX, 0);
        for assignment in 0..self.assignments() {
            let spots = self.spots(alloc, assignment)?;
            let found = match self.farm.judged(&spots) {
                Ok(score) => rank(score),
                Err(_) => u64::MAX,
            };
            if found < best.0 {
                best = (found, assignment);
            }
        }
        Ok(best)
    }

    /// What the check says of the plan of an assignment at these prices.
    fn verdict(
        self,
        alloc: Global,
        spots: &[Spot],
        code: u64,
    ) -> Result<Result<Score, CheckFault>, Fail> {
        let plan = self.farm.plan(alloc, spots, code, self.prices())?;
        Ok(check(self.sheet, &plan))
    }

    /// What the check has to say of the plan of an assignment, where the prices are right ones or aren't.
    fn due(self, spots: &[Spot], best: u64, is_right: bool) -> Result<Score, CheckFault> {
        match self.farm.judged(spots) {
            Ok(score) if rank(score) != best || !is_right => Err(CheckFault::NotShown),
            judged => judged,
        }
    }

    /// The first prices at which the check accepts the plan of this assignment.
    fn right_prices(self, alloc: Global, spots: &[Spot]) -> Result<u64, Fail> {
        for code in 0..self.price_codes() {
            if self.verdict(alloc, spots, code)?.is_ok() {
                return Ok(code);
            }
        }
        Err(Fail::new("no prices show a best assignment"))
    }

    /// Some prices make the check accept the plan of an assignment, or none, as it is best or isn't.
    fn try_prices(
        self,
        rt: &impl Abort,
        alloc: Global,
        spots: &[Spot],
        best: u64,
    ) -> Result<(), Fail> {
        let mut is_accepted = false;
        for code in 0..self.price_codes() {
            let verdict = self.verdict(alloc, spots, code)?;
            assert!(rt; verdict == self.due(spots, best, verdict.is_ok()));
            is_accepted = is_accepted || verdict.is_ok();
        }
        assert!(rt; is_accepted == self.due(spots, best, true).is_ok());
        Ok(())
    }

    fn try_all_prices(self, rt: &impl Abort, alloc: Global) -> Result<(), Fail> {
        let (best, _first) = self.best(alloc)?;
        for assignment in 0..self.assignments() {
            let spots = self.spots(alloc, assignment)?;
            self.try_prices(rt, alloc, &spots, best)?;
        }
        Ok(())
    }

    /// At prices that show one best assignment, the check accepts the plans of the best ones alone. These are spread over the pins as
    /// assignments with the same score.
    fn try_spread(self, rt: &impl Abort, alloc: Global) -> Result<(), Fail> {
        let (best, first) = self.best(alloc)?;
        let spots = self.spots(alloc, first)?;
        let code = self.right_prices(alloc, &spots)?;
        for assignment in 0..self.assignments() {
            let spots = self.spots(alloc, assignment)?;
            let due = self.due(&spots, best, true);
            let found = self.spread(alloc, &spots, code)?;
            assert!(rt; found == (due, due.ok()));
        }
        Ok(())
    }

    /// What the check says of the plan of an assignment, and the score of the pins' places once it is spread over them, if it is
    /// best.
    fn spread(
        self,
        alloc: Global,
        spots: &[Spot],
        code: u64,
    ) -> Result<(Result<Score, CheckFault>, Option<Score>), Fail> {
        let plan = self.farm.plan(alloc, spots, code, self.prices())?;
        let verdict = check(self.sheet, &plan);
        match spread_best(alloc, self.view, &plan)? {
            Some(places) if places.len() == self.view.pins().len() => {
                Ok((verdict, Some(score(self.view, &places))))
            }
            Some(_) => Err(Fail::new("each pin has a place")),
            None => Ok((verdict, None)),
        }
    }
}

/// Tries the farm at prices that show a best assignment, and before that at all prices where that is asked for.
fn try_farm(
    rt: &impl Abort,
    alloc: Global,
    farm: Farm<'_>,
    has_all_prices: bool,
) -> Result<(), Fail> {
    let view = farm.view(alloc)?;
    let sheet = group(alloc, &view, 7)?;
    let case = Case {
        farm,
        view: &view,
        sheet: &sheet,
    };
    if has_all_prices {
        case.try_all_prices(rt, alloc)?;
    }
    case.try_spread(rt, alloc)
}

/// The capacities of a code's digits, the highest digit standing for a server that isn't usable.
fn capacities_of(alloc: Global, rooms: &[u8], pins: usize) -> Result<Vec<Option<u8>>, AllocError> {
    let mut capacities = Vec::new(alloc);
    for room in rooms {
        capacities.push(if usize::from(*room) > pins {
            None
        } else {
            Some(*room)
        })?;
    }
    Ok(capacities)
}

/// A pin of each kind that there can be: each place, each permitted set, cost 1 and cost 2. A pin that may go to each usable
/// server wants none.
fn kinds(alloc: Global, servers: usize, usable: u8) -> Result<Vec<SmallPin>, AllocError> {
    let mut kinds = Vec::new(alloc);
    for code in 0..64u8 {
        let (place, want, cost) = (code / 16, code / 2 % 8, 1 + code % 2);
        if usize::from(place) <= servers && want < usable.max(1) && want & usable == want {
            kinds.push(SmallPin { place, want, cost })?;
        }
    }
    Ok(kinds)
}

fn pins_of(alloc: Global, kinds: &[SmallPin], chosen: &[u8]) -> Result<Vec<SmallPin>, AllocError> {
    let mut pins = Vec::new(alloc);
    for kind in chosen {
        if let Some(pin) = kinds.get(usize::from(*kind)) {
            pins.push(*pin)?;
        }
    }
    Ok(pins)
}

/// Tries all farms of so many pins whose servers have these capacities, at all prices, and returns how many there are.
fn try_pins(
    rt: &impl Abort,
    alloc: Global,
    capacities: &[Option<u8>],
    pins: usize,
) -> Result<u64, Fail> {
    let bare = Farm {
        capacities,
        pins: &[],
    };
    let kinds = kinds(alloc, capacities.len(), bare.usable())?;
    let base = kinds.len() as u64;
    let mut tried = 0u64;
    for number in 0..lists(base, pins) {
        let chosen = digits(alloc, number, base, pins)?;
        if is_rising(&chosen) {
            let pins = pins_of(alloc, &kinds, &chosen)?;
            let farm = Farm {
                capacities,
                pins: &pins,
            };
            try_farm(rt, alloc, farm, true)?;
            tried = tried.saturating_add(1);
        }
    }
    Ok(tried)
}

/// Tries all farms of so many servers and pins, at all prices, and returns how many there are.
fn try_farms(rt: &impl Abort, alloc: Global, servers: usize, pins: usize) -> Result<u64, Fail> {
    let base = (pins as u64).saturating_add(2);
    let mut tried = 0u64;
    for number in 0..lists(base, servers) {
        let rooms = digits(alloc, number, base, servers)?;
        if is_rising(&rooms) {
            let capacities = capacities_of(alloc, &rooms, pins)?;
            tried = tried.saturating_add(try_pins(rt, alloc, &capacities, pins)?);
        }
    }
    Ok(tried)
}

/// How many servers and pins the farms have, and how many farms there are of so many.
const FARMS: &[(usize, usize, u64)] = &[
    (1, 0, 2),
    (1, 1, 12),
    (1, 2, 40),
    (1, 3, 100),
    (2, 0, 3),
    (2, 1, 72),
    (2, 2, 1110),
    (3, 0, 4),
    (3, 1, 320),
];

// Each assignment at all prices.
#[test]
fn an_assignment_is_best_where_some_prices_are_accepted(rt: HostRuntime) -> Result<(), Fail> {
    for (servers, pins, count) in FARMS {
        let tried = try_farms(&rt, rt.alloc(), *servers, *pins)?;
        assert_eq!(rt; tried, *count, "{servers} servers, {pins} pins");
    }
    Ok(())
}

/// The next of numbers that look random and are the same in each run, below `sides`.
fn roll(dice: &mut u64, sides: u8) -> u8 {
    *dice = dice
        .wrapping_mul(6364136223846793005)
        .wrapping_add(1442695040888963407);
    ((*dice >> 33).checked_rem(u64::from(sides)).unwrap_or(0) % 256) as u8
}

fn random_capacities(alloc: Global, dice: &mut u64) -> Result<Vec<Option<u8>>, AllocError> {
    let mut capacities = Vec::new(alloc);
    for _ in 0..3 {
        let room = roll(dice, 4);
        capacities.push(if room == 3 { None } else { Some(room) })?;
    }
    Ok(capacities)
}

/// 3 to 5 pins.
fn random_pins(alloc: Global, dice: &mut u64) -> Result<Vec<SmallPin>, AllocError> {
    let mut pins = Vec::new(alloc);
    for _ in 0..roll(dice, 3).saturating_add(3) {
        let (place, want) = (roll(dice, 4), roll(dice, 8));
        let cost = roll(dice, 2).saturating_add(1);
        pins.push(SmallPin { place, want, cost })?;
    }
    Ok(pins)
}

// A seeded sample of the views of 3 servers and 3 to 5 pins, each assignment at prices that show a best one.
#[test]
fn prices_of_one_best_assignment_show_all_best_ones_and_no_others(
    rt: HostRuntime,
) -> Result<(), Fail> {
    let mut dice = 20261122;
    for _ in 0..2000 {
        let capacities = random_capacities(rt.alloc(), &mut dice)?;
        let pins = random_pins(rt.alloc(), &mut dice)?;
        let farm = Farm {
            capacities: &capacities,
            pins: &pins,
        };
        try_farm(&rt, rt.alloc(), farm, false)?;
    }
    Ok(())
}

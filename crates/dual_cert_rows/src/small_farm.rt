//! Small farms as plain numbers, with the definitions of permitted, lawful and best computed by their words.

use crate::parts::place_of;
use cert_check::CheckFault;
use dual_cert::{Plan, read_plan};
use lb_types::{ServerId, ServerSet};
use pin_groups_spread::{PlainPin, numbered_view};
use pin_set::{Score, View};
use std::alloc::{AllocError, Global};
use std::test::Fail;

/// A place, or an option: 0 is none, and i is the server of number i - 1.
pub(crate) type Spot = u8;

/// Place, wanted servers as bits, and cost.
#[derive(Clone, Copy)]
pub(crate) struct SmallPin {
    pub place: Spot,
    pub want: u8,
    pub cost: u8,
}

/// At most 3 servers and few pins. A server without a capacity isn't usable.
#[derive(Clone, Copy)]
pub(crate) struct Farm<'a> {
    pub capacities: &'a [Option<u8>],
    pub pins: &'a [SmallPin],
}

fn name(spot: Spot) -> &'static str {
    match spot {
        1 => "aa",
        2 => "ab",
        3 => "ac",
        _ => "-",
    }
}

/// The words of sets, by the bits that stand for their servers.
const SET_WORDS: &[&str] = &["-", "aa", "ab", "aa,ab", "ac", "aa,ac", "ab,ac", "aa,ab,ac"];

fn set_word(bits: usize) -> &'static str {
    SET_WORDS.get(bits).copied().unwrap_or("?")
}

/// The bits of servers, by their spots.
const BITS: &[u8] = &[0, 1, 2, 4];

fn bit(spot: Spot) -> u8 {
    BITS.get(usize::from(spot)).copied().unwrap_or(0)
}

/// The servers that the bits stand for.
fn set_of(bits: u8) -> ServerSet {
    let mut set = ServerSet::empty();
    for server in 0..3u8 {
        if bits & bit(server + 1) != 0 {
            set = set.with(ServerId::new(server));
        }
    }
    set
}

/// How many of the pins go there.
fn load(spots: &[Spot], there: Spot) -> u8 {
    let mut load = 0u8;
    for spot in spots {
        if *spot == there {
            load = load.saturating_add(1);
        }
    }
    load
}

/// The number's digits, the lowest one first.
pub(crate) fn digits(
    alloc: Global,
    number: u64,
    base: u64,
    len: usize,
) -> Result<Vec<u8>, AllocError> {
    let mut left = number;
    let mut digits = Vec::new(alloc);
    for _ in 0..len {
        digits.push((left.checked_rem(base).unwrap_or(0) % 256) as u8)?;
        left = left.checked_div(base).unwrap_or(0);
    }
    Ok(digits)
}

impl Farm<'_> {
    pub(crate) fn usable(self) -> u8 {
        let mut bits = 0;
        let mut spot: Spot = 0;
        for capacity in self.capacities {
            spot = spot.saturating_add(1);
            if capacity.is_some() {
                bits |= bit(spot);
            }
        }
        bits
    }

    /// The servers that the pin wants of the usable ones, or all usable ones where that is none.
    fn permitted(self, pin: SmallPin) -> u8 {
        match pin.want & self.usable() {
            0 => self.usable(),
            wanted => wanted,
        }
    }

    fn may_go(self, pin: SmallPin, spot: Spot) -> bool {
        spot == 0 || self.permitted(pin) & bit(spot) != 0
    }

    /// What going without a server costs.
    pub(crate) fn unplaced_cost(self) -> u64 {
        let mut cost = 1u64;
        for pin in self.pins {
            cost = cost.saturating_add(u64::from(pin.cost));
        }
        cost
    }

    fn has_room(self, spots: &[Spot]) -> bool {
        let mut spot: Spot = 0;
        for capacity in self.capacities {
            spot = spot.saturating_add(1);
            if load(spots, spot) > capacity.unwrap_or(0) {
                return false;
            }
        }
        true
    }

    /// The rule that an assignment breaks, or else its score.
    pub(crate) fn judged(self, spots: &[Spot]) -> Result<Score, CheckFault> {
        let mut score = Score {
            pins: 0,
            unplaced: 0,
            moved: 0,
            cost: 0,
        };
        for (pin, spot) in self.pins.iter().zip(spots) {
            if !self.may_go(*pin, *spot) {
                return Err(CheckFault::NotPermitted);
            }
            let is_moved = pin.place != *spot;
            let cost = if is_moved { pin.cost } else { 0 };
            score.pins = score.pins.saturating_add(1);
            score.unplaced = score.unplaced.saturating_add(u64::from(*spot == 0));
            score.moved = score.moved.saturating_add(u64::from(is_moved));
            score.cost = score.cost.saturating_add(u64::from(cost));
        }
        if self.has_room(spots) {
            Ok(score)
        } else {
            Err(CheckFault::OverCapacity)
        }
    }

    fn plain_capacities(self, alloc: Global) -> Result<Vec<u32>, AllocError> {
        let mut capacities = Vec::new(alloc);
        for capacity in self.capacities {
            capacities.push(u32::from(capacity.unwrap_or(3)))?;
        }
        Ok(capacities)
    }

    fn plain_pins(self, alloc: Global) -> Result<Vec<PlainPin>, AllocError> {
        let mut pins = Vec::new(alloc);
        for pin in self.pins {
            pins.push(PlainPin {
                place: place_of(pin.place.checked_sub(1)),
                want: set_of(pin.want),
                cost: u16::from(pin.cost),
            })?;
        }
        Ok(pins)
    }

    /// The view of this farm.
    pub(crate) fn view(self, alloc: Global) -> Result<View, Fail> {
        let capacities = self.plain_capacities(alloc)?;
        let pins = self.plain_pins(alloc)?;
        match numbered_view(alloc, set_of(self.usable()), &capacities, &pins)? {
            Some(view) => Ok(view),
            None => Err(Fail::new("a small farm has a view")),
        }
    }

    /// The plan of an assignment. The prices of usable servers are digits of the code, and all others are 0.
    pub(crate) fn plan(
        self,
        alloc: Global,
        spots: &[Spot],
        code: u64,
        base: u64,
    ) -> Result<Plan, Fail> {
        let mut text = String::new(alloc);
        self.add_servers(alloc, code, base, &mut text)?;
        let keys = self.keys(alloc, spots)?;
        add_rows(alloc, &keys, self.has_costs(), &mut text)?;
        Ok(read_plan(alloc, text.as_bytes())?)
    }

    fn has_costs(self) -> bool {
        for pin in self.pins {
            if pin.cost != 1 {
                return true;
            }
        }
        false
    }

    fn add_servers(
        self,
        alloc: Global,
        code: u64,
        base: u64,
        text: &mut String,
    ) -> Result<(), AllocError> {
        text.push_str(if self.has_costs() {
            "stickyplan 2\nversion 7\n"
        } else {
            "stickyplan 1\nversion 7\n"
        })?;
        let mut left = code;
        let mut spot: Spot = 0;
        for capacity in self.capacities {
            spot = spot.saturating_add(1);
            let price = left.checked_rem(base).unwrap_or(0);
            add_server(alloc, name(spot), *capacity, price, text)?;
            if capacity.is_some() {
                left = left.checked_div(base).unwrap_or(0);
            }
        }
        Ok(())
    }

    /// Place, permitted servers, cost and new place of each pin, as a number, in rising order.
    fn keys(self, alloc: Global, spots: &[Spot]) -> Result<Vec<u32>, AllocError> {
        let mut keys = Vec::new(alloc);
        for (pin, spot) in self.pins.iter().zip(spots) {
            let place = u32::from(pin.place).saturating_mul(256);
            let permitted = u32::from(self.permitted(*pin)).saturating_mul(32);
            let cost = u32::from(pin.cost).saturating_mul(8);
            let key = place.saturating_add(permitted).saturating_add(cost);
            keys.push(key.saturating_add(u32::from(*spot)))?;
        }
        keys.sort()?;
        Ok(keys)
    }
}

fn add_server(
    alloc: Global,
    name: &str,
    capacity: Option<u8>,
    price: u64,
    text: &mut String,
) -> Result<(), AllocError> {
    let line = match capacity {
        None => format!(in alloc; "server {name} off\n"),
        Some(room) => format!(in alloc; "server {name} cap {room} price {price}\n"),
    };
    text.push_str(&line?)
}

/// Adds a row for the pins of each key, which are distinguished here as in a plan: equal pins stand together.
fn add_rows(
    alloc: Global,
    keys: &[u32],
    has_costs: bool,
    text: &mut String,
) -> Result<(), AllocError> {
    let mut count = 0u64;
    for (at, key) in keys.iter().enumerate() {
        count = count.saturating_add(1);
        if keys.get(at.saturating_add(1)) != Some(key) {
            add_row(alloc, count, *key, has_costs, text)?;
            count = 0;
        }
    }
    text.push_str("end\n")
}

fn add_row(
    alloc: Global,
    count: u64,
    key: u32,
    has_costs: bool,
    text: &mut String,
) -> Result<(), AllocError> {
    let (place, spot) = (name((key / 256 % 4) as u8), name((key % 8) as u8));
    let permitted = set_word((key / 32 % 8) as usize);
    let cost = match (has_costs, key / 8 % 4) {
        (false, _) => "",
        (true, 1) => " 1",
        (true, _) => " 2",
    };
    let line = format!(in alloc; "row {count} {place} {spot} {permitted}{cost}\n")?;
    text.push_str(&line)
}

//! Sheets as plain numbers, with the definitions of lawful and best computed by their words.

use dual_cert::{Sheet, read_sheet};
use std::alloc::{AllocError, Global};
use std::collections::BTreeMap;
use std::test::Fail;

/// A place, or an option: 0 is none, and i is the server of number i - 1.
pub(crate) type Spot = u8;

/// The kind of a pin: its place, the servers that it may go to as bits, and its cost.
#[derive(Clone, Copy, Debug, PartialEq, Eq, PartialOrd, Ord)]
pub(crate) struct PlainKind {
    pub place: Spot,
    pub permitted: u8,
    pub cost: u16,
}

/// At most 8 servers, where one without a capacity is off, and how many pins there are of each kind.
#[derive(Drop)]
pub(crate) struct PlainSheet {
    pub capacities: Vec<Option<u32>>,
    pub groups: BTreeMap<PlainKind, u32>,
}

/// How well an assignment does: fewer pins without a server are better, and of as many the less cost of moves.
#[derive(Clone, Copy, Debug, PartialEq, Eq, PartialOrd, Ord)]
pub(crate) struct Judged {
    pub unplaced: u64,
    pub cost: u64,
}

/// The servers that aren't off, as bits.
pub(crate) fn usable(capacities: &[Option<u32>]) -> u8 {
    let mut bits = 0;
    for (server, capacity) in capacities.iter().take(8).enumerate() {
        if capacity.is_some() {
            bits |= bit(server);
        }
    }
    bits
}

fn bit(server: usize) -> u8 {
    [1, 2, 4, 8, 16, 32, 64, 128]
        .get(server)
        .copied()
        .unwrap_or(0)
}

impl PlainKind {
    fn may_go(&self, spot: Spot) -> bool {
        spot == 0 || self.permitted & bit(usize::from(spot - 1)) != 0
    }
}

impl PlainSheet {
    pub(crate) fn add(&mut self, kind: PlainKind, count: u32) -> Result<(), AllocError> {
        let pins = self.groups.entry(kind)?.or_insert(0);
        *pins = pins.saturating_add(count);
        Ok(())
    }

    /// How many pins there are.
    pub(crate) fn size(&self) -> u64 {
        self.groups
            .values()
            .fold(0, |sum: u64, count| sum.saturating_add(u64::from(*count)))
    }

    /// The sheet, by its text.
    pub(crate) fn sheet(&self, alloc: Global) -> Result<Sheet, Fail> {
        let text = self.text(alloc)?;
        Ok(read_sheet(alloc, text.as_bytes())?)
    }

    fn has_costs(&self) -> bool {
        self.groups.keys().any(|kind| kind.cost != 1)
    }

    fn text(&self, alloc: Global) -> Result<String, AllocError> {
        let format = if self.has_costs() { 2 } else { 1 };
        let mut text = format!(in alloc; "stickysheet {format}\nversion 7\n")?;
        for (server, capacity) in self.capacities.iter().enumerate() {
            let line = match capacity {
                None => format!(in alloc; "server s{server} off\n")?,
                Some(room) => format!(in alloc; "server s{server} cap {room}\n")?,
            };
            text.push_str(&line)?;
        }
        for (kind, count) in &self.groups {
            let line = self.group_line(alloc, kind, *count)?;
            text.push_str(&line)?;
        }
        text.push_str("end\n")?;
        Ok(text)
    }

    fn group_line(
        &self,
        alloc: Global,
        kind: &PlainKind,
        count: u32,
    ) -> Result<String, AllocError> {
        let place = match kind.place.checked_sub(1) {
            None => String::from_str(alloc, "-")?,
            Some(server) => format!(in alloc; "s{server}")?,
        };
        let set = set_word(alloc, kind.permitted)?;
        let cost = kind.cost;
        if self.has_costs() {
            format!(in alloc; "group {count} {place} {set} {cost}\n")
        } else {
            format!(in alloc; "group {count} {place} {set}\n")
        }
    }

    /// The kind of each pin.
    pub(crate) fn pins(&self, alloc: Global) -> Result<Vec<PlainKind>, AllocError> {
        let mut pins = Vec::new(alloc);
        for (kind, count) in &self.groups {
            for _ in 0..*count {
                pins.push(*kind)?;
            }
        }
        Ok(pins)
    }

    /// How well the assignment does that sends each of the pins to its spot; none where it breaks a rule.
    fn judged(&self, pins: &[PlainKind], assignment: &[Spot]) -> Option<Judged> {
        let mut moves = pins.iter().zip(assignment);
        if !moves.all(|(pin, spot)| pin.may_go(*spot)) || !self.has_room(assignment) {
            return None;
        }
        let unplaced = assignment.iter().filter(|spot| **spot == 0).count() as u64;
        let mut cost = 0u64;
        for (pin, spot) in pins.iter().zip(assignment) {
            if pin.place != *spot {
                cost = cost.saturating_add(u64::from(pin.cost));
            }
        }
        Some(Judged { unplaced, cost })
    }

    fn has_room(&self, assignment: &[Spot]) -> bool {
        self.capacities.iter().enumerate().all(|(server, capacity)| {
            let load = assignment
                .iter()
                .filter(|spot| usize::from(**spot) == server.saturating_add(1))
                .count();
            load as u64 <= u64::from(capacity.unwrap_or(0))
        })
    }

    /// How well the best of the assignments does.
    pub(crate) fn best(&self, pins: &[PlainKind], assignments: &[Vec<Spot>]) -> Option<Judged> {
        assignments
            .iter()
            .filter_map(|assignment| self.judged(pins, assignment))
            .min()
    }
}

fn set_word(alloc: Global, permitted: u8) -> Result<String, AllocError> {
    let mut word = String::new(alloc);
    for server in 0..8u8 {
        if permitted & bit(usize::from(server)) != 0 {
            let comma = if word.is_empty() { "" } else { "," };
            let name = format!(in alloc; "{comma}s{server}")?;
            word.push_str(&name)?;
        }
    }
    if word.is_empty() {
        word.push('-')?;
    }
    Ok(word)
}

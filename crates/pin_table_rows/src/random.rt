use crate::sketch::{cost_of, name_of, settings, want_of};
use lb_types::{Moment, Place, ServerId};
use pin_table::{InsertFault, NoRest, Table, TableKind, TableRoom};
use std::alloc::{AllocError, Global};
use std::hash::{BuildHasher, BuildHasherDefault, FoldHasher, RandomState};
use std::process::Abort;
use std::test::Fail;

/// A pin as it is in the plain list.
#[derive(Clone, Copy, Debug, PartialEq, Eq)]
struct PlainPin {
    number: u32,
    place: Place,
    last_use: Moment,
}

/// The same calls on a table and on a plain list of its pins, oldest first.
#[derive(Drop)]
struct Both<S: BuildHasher + Drop> {
    table: Table<S>,
    plain: Vec<PlainPin>,
    size: usize,
    no_purge: bool,
}

impl<S: BuildHasher + Drop> Both<S> {
    /// Uses the pin of this number, where it is or at the server, or makes it there: whether table and list agree.
    fn used(
        &mut self,
        number: u32,
        server: ServerId,
        stays: bool,
        last_use: Moment,
    ) -> Result<bool, AllocError> {
        if self.table.uses() >= 1_000_000_000 {
            return Ok(false);
        }
        let name = name_of(number);
        let Some(held) = self.table.find(&name) else {
            return self.made(number, server, last_use);
        };
        let place = if stays { held.place } else { Some(server) };
        if stays {
            self.table.keep(&name, held, last_use);
        } else {
            self.table.move_to(&name, held, server, last_use)?;
        }
        let known = self.taken(number);
        self.plain.push(PlainPin {
            number,
            place,
            last_use,
        })?;
        Ok(known)
    }

    /// Makes the pin of this number: whether table and list agree.
    fn made(
        &mut self,
        number: u32,
        server: ServerId,
        last_use: Moment,
    ) -> Result<bool, AllocError> {
        let full = self.plain.len() >= self.size;
        if full && !self.no_purge && self.plain.len() > 0 {
            let _ = self.plain.remove(0);
        }
        let closed = full && self.no_purge;
        if !closed {
            self.plain.push(PlainPin {
                number,
                place: Some(server),
                last_use,
            })?;
        }
        let name = name_of(number);
        if self.table.find(&name).is_some() || self.table.uses() >= 1_000_000_000 {
            return Ok(false);
        }
        match self.table.insert(name, server, cost_of(number), last_use) {
            Ok(()) => Ok(!closed),
            Err(refusal) if refusal.fault == InsertFault::TableFull => Ok(closed),
            Err(_) => Err(AllocError),
        }
    }

    /// Takes the pin of this number out of the list: whether it was there.
    fn taken(&mut self, number: u32) -> bool {
        let Some(place) = self.plain.iter().position(|pin| pin.number == number) else {
            return false;
        };
        if place < self.plain.len() {
            let _ = self.plain.remove(place);
        }
        true
    }

    /// Pops the oldest pin of both: whether they agree.
    fn popped(&mut self) -> bool {
        if self.table.uses() >= 1_000_000_000 {
            return false;
        }
        let was = self.plain.first().map(|pin| pin.number);
        if self.plain.len() > 0 {
            let _ = self.plain.remove(0);
        }
        self.table.pop_oldest().map(|pin| pin.0) == was.map(name_of)
    }

    /// Whether both have as many pins, the same oldest one and the same pin of this number, and the counts are those of the list.
    fn agree(&self, number: u32) -> bool {
        let oldest = self.plain.first().map(|pin| pin.last_use);
        self.table.len() == self.plain.len()
            && self.oldest_use() == oldest
            && self.pin_agrees(number)
            && self.counts_agree()
    }

    /// Whether the table's rows are the list's pins, in their order.
    fn rows_agree(&self, alloc: Global) -> Result<bool, AllocError> {
        // Too little room, so that the copy has to take more.
        let room = TableRoom::touched(alloc, self.plain.len() / 2, &NoRest)?;
        let rows = self.table.copy(alloc, room)?.rows(alloc, &NoRest)?;
        if rows.len() != self.plain.len() {
            return Ok(false);
        }
        for (row, pin) in rows.iter().zip(self.plain.iter()) {
            if row.pin.id != name_of(pin.number)
                || row.pin.place != pin.place
                || row.pin.cost != cost_of(pin.number)
                || row.last_use != pin.last_use
            {
                return Ok(false);
            }
        }
        Ok(true)
    }

    /// Whether both have the same pin of this number, or none.
    fn pin_agrees(&self, number: u32) -> bool {
        let pin = self.plain.iter().find(|pin| pin.number == number).copied();
        let Some(held) = self.table.find(&name_of(number)) else {
            return pin.is_none();
        };
        let Some(pin) = pin else {
            return false;
        };
        held.place == pin.place && held.last_use == pin.last_use && held.cost == cost_of(number)
    }

    /// When the table's oldest pin was used.
    fn oldest_use(&self) -> Option<Moment> {
        match self.table.oldest() {
            Some((_, held)) => Some(held.last_use),
            None => None,
        }
    }

    /// Whether the counts are those of the list, counted again, and rise.
    fn counts_agree(&self) -> bool {
        let mut before: Option<TableKind> = None;
        let mut all: u64 = 0;
        for (kind, count) in self.table.counts() {
            let counted = self.plain.iter().filter(|pin| is_of(pin, kind)).count();
            if counted as u64 != *count || counted == 0 {
                return false;
            }
            if before.is_some_and(|before| before >= *kind) {
                return false;
            }
            before = Some(*kind);
            all = all.wrapping_add(*count);
        }
        all == self.plain.len() as u64
    }
}

fn is_of(pin: &PlainPin, kind: &TableKind) -> bool {
    pin.place == kind.place && want_of(pin.number) == kind.want && cost_of(pin.number) == kind.cost
}

/// So many calls, drawn from a seed, of which one in eight is a pop: the first after which table and list disagree.
fn first_difference<S: BuildHasher + Drop>(
    alloc: Global,
    table: Table<S>,
    size: u32,
    no_purge: bool,
    calls: u32,
) -> Result<Option<u32>, AllocError> {
    let mut both = Both {
        table,
        plain: Vec::new(alloc),
        size: size as usize,
        no_purge,
    };
    let mut state: u64 = 20;
    for call in 0..calls {
        state = state
            .wrapping_mul(6364136223846793005)
            .wrapping_add(1442695040888963407);
        let draw = (state >> 33) as u32;
        let number = draw / 64 % 23;
        let server = ServerId::new((draw / 16 % 4) as u8);
        let same = if draw % 8 == 0 {
            both.popped()
        } else {
            let now = Moment::from_millis(u64::from(call));
            both.used(number, server, draw % 16 < 8, now)?
        };
        if !same || !both.agree(number) || !both.rows_agree(alloc)? {
            return Ok(Some(call));
        }
    }
    Ok(None)
}

/// The table's size, whether it keeps its pins, and how many calls are made.
const SIZES: &[(u32, bool, u32)] = &[
    (8, false, 40_000),
    (8, true, 10_000),
    (1, false, 10_000),
    (23, false, 40_000),
];

fn expect_agreement<S: BuildHasher + Drop>(
    rt: &impl Abort,
    alloc: Global,
    hasher: S,
    row: (u32, bool, u32),
) -> Result<(), AllocError> {
    let (size, no_purge, calls) = row;
    if size < 1 || size > 100 {
        return Ok(());
    }
    let table = Table::new(alloc, settings(size, no_purge), hasher);
    let difference = first_difference(alloc, table, size, no_purge, calls)?;
    assert_eq!(rt; difference, None);
    Ok(())
}

#[test]
fn random_calls_agree_with_a_plain_list(rt: HostRuntime) -> Result<(), Fail> {
    for row in SIZES {
        let fixed = BuildHasherDefault::<FoldHasher>::new();
        expect_agreement(&rt, rt.alloc(), fixed, *row)?;
        let seeded = RandomState::new(&rt)?;
        expect_agreement(&rt, rt.alloc(), seeded, *row)?;
    }
    Ok(())
}

//! Pins that are made, used, sent elsewhere and popped in a table, which grows until it is full.

use crate::farm::{A, B, Hasher, server};
use crate::marks::{begin, end, tell};
use dual_cert::{Plan, read_plan};
use lb_types::{Moment, ServerSet, TableSettings};
use pin_set::{PinCount, PinId, PinKey, TablePin};
use pin_table::{NoRest, Table, TableRoom};
use pin_table_rows::placed;
use std::alloc::{AllocError, Global};
use std::hash::{BuildHasherDefault, FoldHasher};
use std::net::Ipv4Addr;
use std::process::Abort;
use std::test::Fail;

/// More pins than a table holds when it is new, and more kinds than it counts then.
const SIZE: u32 = 14;

/// Two pins have to go for the last two.
const MANY: u32 = 16;

/// A plan for pins 0 to 3 at a, of which the first and the last go to b.
const PLAN: &[u8] = b"stickyplan 2
version 0
server a cap 9 price 0
server b cap 9 price 0
row 1 a b a,b 1
row 1 a a a,b 2
row 1 a a a,b 3
row 1 a b a,b 4
end
";

/// What a call that is refused leaves as it was.
#[derive(Drop)]
struct Stand {
    pins: Vec<TablePin>,
    counts: Vec<PinCount>,
    uses: u64,
}

impl Stand {
    fn of(alloc: Global, table: &Table<Hasher>) -> Result<Stand, AllocError> {
        Ok(Stand {
            pins: table
                .copy(alloc, TableRoom::empty(alloc))?
                .rows(alloc, &NoRest)?,
            counts: table.pin_counts(alloc)?,
            uses: table.uses(),
        })
    }

    fn is(&self, other: &Stand) -> bool {
        self.pins == other.pins && self.counts == other.counts && self.uses == other.uses
    }
}

/// A table that pins 0 and so on were made in, so many.
fn table(alloc: Global, pins: u32) -> Result<Table<Hasher>, AllocError> {
    let settings = TableSettings {
        size: SIZE,
        expire: None,
        no_purge: false,
    };
    let mut table = Table::new(alloc, settings, BuildHasherDefault::<FoldHasher>::new());
    for number in 0..pins {
        insert(&mut table, number)?;
    }
    Ok(table)
}

/// A pin that may be anywhere.
fn name_of(number: u32) -> PinId {
    PinId {
        key: PinKey::Ipv4(Ipv4Addr::from_bits(number)),
        want: ServerSet::empty(),
    }
}

/// What it costs to move the pin of this number: no two cost the same.
fn cost_of(number: u32) -> u16 {
    (number % 100 + 1) as u16
}

/// Makes the pin of this number at a.
fn insert(table: &mut Table<Hasher>, number: u32) -> Result<(), AllocError> {
    let name = name_of(number);
    if table.uses() >= 1000 || table.find(&name).is_some() {
        return Ok(());
    }
    let now = Moment::from_millis(u64::from(number));
    match table.insert(name, server(A), cost_of(number), now) {
        Ok(()) => Ok(()),
        Err(_) => Err(AllocError),
    }
}

/// Uses the pin of this number where it is.
fn keep(table: &mut Table<Hasher>, number: u32) {
    let name = name_of(number);
    if table.uses() >= 1000 {
        return;
    }
    if let Some(held) = table.find(&name) {
        table.keep(&name, held, Moment::from_millis(100));
    }
}

/// Uses the pin of this number at b from now on.
fn move_to_b(table: &mut Table<Hasher>, number: u32) -> Result<(), AllocError> {
    let name = name_of(number);
    if table.uses() >= 1000 {
        return Ok(());
    }
    if let Some(held) = table.find(&name) {
        table.move_to(&name, held, server(B), Moment::from_millis(100))?;
    }
    Ok(())
}

/// Takes out the pin that wasn't used for longest.
fn pop(table: &mut Table<Hasher>) -> Option<PinId> {
    if table.uses() >= 1000 {
        return None;
    }
    let (name, _) = table.pop_oldest()?;
    Some(name)
}

fn count(at: u8, number: u32) -> PinCount {
    PinCount {
        place: Some(server(at)),
        want: ServerSet::empty(),
        cost: cost_of(number),
        count: 1,
    }
}

fn is_as_before(
    rt: &impl Abort,
    alloc: Global,
    table: &Table<Hasher>,
    before: &Stand,
) -> Result<(), Fail> {
    tell(alloc)?;
    assert!(rt;
        Stand::of(alloc, table)?.is(before),
        "a refused call changed something"
    );
    Ok(())
}

/// The table has pins of these numbers, in their order, at these servers, and counts them so.
fn has(
    rt: &impl Abort,
    alloc: Global,
    table: &Table<Hasher>,
    pins: &[(u32, u8)],
) -> Result<(), Fail> {
    let stand = Stand::of(alloc, table)?;
    let are_these = stand.pins.len() == pins.len()
        && stand.pins.iter().zip(pins).all(|(row, owed)| row.pin.id == name_of(owed.0)
            && row.pin.place == Some(server(owed.1)));
    let are_counted = stand.counts.len() == pins.len()
        && pins
            .iter()
            .all(|owed| stand.counts.contains(&count(owed.1, owed.0)));
    assert!(rt;
        are_these && are_counted,
        "not these pins: {:?}",
        stand.counts
    );
    Ok(())
}

#[test]
fn pins_that_are_made(rt: HostRuntime) -> Result<(), Fail> {
    let alloc = rt.alloc();
    let mut table = table(alloc, 0)?;
    makes_all(&rt, alloc, &mut table)
}

fn makes_all(rt: &impl Abort, alloc: Global, table: &mut Table<Hasher>) -> Result<(), Fail> {
    for number in 0..MANY {
        makes(rt, alloc, table, number)?;
    }
    let mut owed = Vec::new(alloc);
    for number in 2..MANY {
        owed.push((number, A))?;
    }
    has(rt, alloc, table, &owed)
}

fn makes(
    rt: &impl Abort,
    alloc: Global,
    table: &mut Table<Hasher>,
    number: u32,
) -> Result<(), Fail> {
    let before = Stand::of(alloc, table)?;
    begin(alloc)?;
    let told = insert(table, number);
    end(alloc)?;
    if told.is_err() {
        is_as_before(rt, alloc, table, &before)?;
        insert(table, number)?;
    }
    Ok(())
}

#[test]
fn pins_that_are_used_and_go(rt: HostRuntime) -> Result<(), Fail> {
    let alloc = rt.alloc();
    let mut table = table(alloc, 4)?;
    uses(&rt, alloc, &mut table)?;
    goes(&rt, alloc, &mut table)
}

/// Pin 1 is used where it is, and pin 0 elsewhere.
fn uses(rt: &impl Abort, alloc: Global, table: &mut Table<Hasher>) -> Result<(), Fail> {
    begin(alloc)?;
    keep(table, 1);
    end(alloc)?;
    let before = Stand::of(alloc, table)?;
    begin(alloc)?;
    let told = move_to_b(table, 0);
    end(alloc)?;
    if told.is_err() {
        is_as_before(rt, alloc, table, &before)?;
        move_to_b(table, 0)?;
    }
    has(rt, alloc, table, &[(2, A), (3, A), (1, A), (0, B)])
}

/// Pin 2 goes, which wasn't used for longest.
fn goes(rt: &impl Abort, alloc: Global, table: &mut Table<Hasher>) -> Result<(), Fail> {
    begin(alloc)?;
    let popped = pop(table);
    end(alloc)?;
    assert!(rt; popped == Some(name_of(2)), "another pin went");
    has(rt, alloc, table, &[(3, A), (1, A), (0, B)])
}

#[test]
fn counts_of_pins(rt: HostRuntime) -> Result<(), Fail> {
    let alloc = rt.alloc();
    let table = table(alloc, 4)?;
    counts(&rt, alloc, &table)
}

fn counts(rt: &impl Abort, alloc: Global, table: &Table<Hasher>) -> Result<(), Fail> {
    let before = Stand::of(alloc, table)?;
    begin(alloc)?;
    let told = table.pin_counts(alloc);
    end(alloc)?;
    let counts = match told {
        Ok(counts) => counts,
        Err(_) => {
            is_as_before(rt, alloc, table, &before)?;
            table.pin_counts(alloc)?
        }
    };
    let owed = [count(A, 0), count(A, 1), count(A, 2), count(A, 3)];
    assert!(rt; counts.as_slice() == owed.as_slice(), "not these counts");
    Ok(())
}

#[test]
fn pins_that_a_plan_sends(rt: HostRuntime) -> Result<(), Fail> {
    let alloc = rt.alloc();
    let plan = read_plan(alloc, PLAN)?;
    let mut table = table(alloc, 4)?;
    sends(&rt, alloc, &mut table, &plan)
}

fn sends(
    rt: &impl Abort,
    alloc: Global,
    table: &mut Table<Hasher>,
    plan: &Plan,
) -> Result<(), Fail> {
    let usable = ServerSet::empty().with(server(A)).with(server(B));
    let before = Stand::of(alloc, table)?;
    begin(alloc)?;
    let told = placed(alloc, table, usable, plan);
    end(alloc)?;
    let fits = match told {
        Ok(fits) => fits,
        Err(_) => {
            is_as_before(rt, alloc, table, &before)?;
            placed(alloc, table, usable, plan)?
        }
    };
    assert!(rt; fits, "not a plan for these pins");
    has(rt, alloc, table, &[(0, B), (1, A), (2, A), (3, B)])
}

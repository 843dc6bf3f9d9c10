//! The calls of a table of pins, each timed by itself, with names made beforehand and a seeded hasher.
//!
//! A table grows from empty to so many pins. Then pins drawn at random are found and used, three times as many. Then as many new pins
//! are made, each of which purges the oldest. Then the counts are walked over, of 1,000 kinds where there are pins enough. Memory is
//! what the process has more than before the growth. Then a table grows by names that all have one hash under the hasher of fixed
//! seed, which should cost it no more than others. The last one grows under that hasher, by names that look random.

use crate::numbered::{hashes, set_of_one_hash};
use crate::{Times, drawn_names, grown, names, resident, tell_clock};
use anyhow::Result;
use lb_types::{Moment, ServerId, ServerSet, TableSettings};
use pin_set::PinId;
use pin_table::Table;
use std::alloc::{AllocError, Global};
use std::hash::{BuildHasher, BuildHasherDefault, FoldHasher, RandomState};
use std::random::RandomSource;
use std::rt::Runtime;
use std::time::Instant;

/// For how many calls names are made beforehand.
const BATCH: u32 = 10_000;

/// How many names are compared to see whether they have one hash.
const NAMES: u32 = 1000;

/// Of so many kinds pins are made in turn: at so many servers, and at as many costs as it takes.
const KINDS: u32 = 1000;

const SERVERS: u32 = 128;

/// More than a table is used here.
const MANY: u64 = 1 << 40;

/// Times the calls of a table of so many pins.
pub fn measure_table(rt: &(impl Runtime + RandomSource), alloc: Global, pins: u32) -> Result<()> {
    tell_clock(rt)?;
    use_table(rt, alloc, RandomState::new(rt)?, pins)?;
    grow_by_one_hash(rt, alloc, RandomState::new(rt)?, pins)?;
    grow_unseeded(rt, alloc, pins)
}

/// Fills a table, uses its pins, and makes as many new ones.
fn use_table<S: BuildHasher + Drop>(
    rt: &impl Runtime,
    alloc: Global,
    hasher: S,
    pins: u32,
) -> Result<()> {
    let before = resident(rt)?;
    let mut table = Table::new(alloc, settings(pins), hasher);
    fill_and_use(rt, alloc, &mut table, before, pins)
}

// Where a function owns a table and makes many calls after which it would end, the prover takes minutes. So it is lent one.
fn fill_and_use<S: BuildHasher + Drop>(
    rt: &impl Runtime,
    alloc: Global,
    table: &mut Table<S>,
    before: u64,
    pins: u32,
) -> Result<()> {
    let none = ServerSet::empty();
    make(rt, alloc, table, (none, 0, pins), "growth")?;
    tell_memory(rt, before, pins)?;
    touch(rt, alloc, table, pins)?;
    make(
        rt,
        alloc,
        table,
        (none, pins, pins),
        "an insert with a purge",
    )?;
    tell_memory(rt, before, pins)?;
    count(rt, alloc, table)
}

fn tell_memory(rt: &impl Runtime, before: u64, pins: u32) -> Result<()> {
    let bytes = grown(rt, before, u64::from(pins))?;
    eprintln!(rt; "{bytes} bytes a pin")?;
    Ok(())
}

fn settings(pins: u32) -> TableSettings {
    TableSettings {
        size: pins.max(1).min(16_777_216),
        expire: None,
        no_purge: false,
    }
}

/// Makes pins that want these servers: from the first number on, so many.
fn make<S: BuildHasher + Drop>(
    rt: &impl Runtime,
    alloc: Global,
    table: &mut Table<S>,
    pins: (ServerSet, u32, u32),
    what: &str,
) -> Result<()> {
    let (want, first, count) = pins;
    let mut times = Times::none();
    for batch in 0..count.div_ceil(BATCH) {
        let made = batch.saturating_mul(BATCH);
        let number = first.saturating_add(made);
        let names = names(alloc, number, BATCH.min(count.saturating_sub(made)), want)?;
        make_each(rt, table, number, names, &mut times)?;
    }
    println!(rt; "{what}: {} pins", table.len())?;
    times.tell(rt, what)
}

/// Makes these pins, which have numbers from the first one on.
fn make_each<S: BuildHasher + Drop>(
    rt: &impl Runtime,
    table: &mut Table<S>,
    first: u32,
    names: Vec<PinId>,
    times: &mut Times,
) -> Result<()> {
    let mut number = first;
    for name in names {
        time_one(rt, table, number, name, times)?;
        number = number.wrapping_add(1);
    }
    Ok(())
}

fn time_one<S: BuildHasher + Drop>(
    rt: &impl Runtime,
    table: &mut Table<S>,
    number: u32,
    name: PinId,
    times: &mut Times,
) -> Result<()> {
    let start = Instant::now(rt)?;
    make_one(table, number, name)?;
    times.add(rt, start)
}

/// Makes a pin whose name is new.
fn make_one<S: BuildHasher + Drop>(
    table: &mut Table<S>,
    number: u32,
    name: PinId,
) -> Result<(), AllocError> {
    if table.uses() >= MANY || table.find(&name).is_some() {
        return Ok(());
    }
    let kind = number % KINDS;
    let server = ServerId::new((kind % SERVERS) as u8);
    let cost = (kind / SERVERS) as u16 + 1;
    match table.insert(name, server, cost, Moment::from_millis(0)) {
        Ok(()) => Ok(()),
        Err(_) => Err(AllocError),
    }
}

/// Finds and uses three times as many pins as there are, and prints how many were there.
fn touch<S: BuildHasher + Drop>(
    rt: &impl Runtime,
    alloc: Global,
    table: &mut Table<S>,
    pins: u32,
) -> Result<()> {
    let mut times = Times::none();
    let mut used: u64 = 0;
    let draws = pins.saturating_mul(3);
    for batch in 0..draws.div_ceil(BATCH) {
        let drawn = batch.saturating_mul(BATCH);
        let count = BATCH.min(draws.saturating_sub(drawn));
        let names = drawn_names(alloc, drawn, count, pins)?;
        used = used.saturating_add(touch_each(rt, table, &names, &mut times)?);
    }
    println!(rt; "{used} uses of pins that were there")?;
    times.tell(rt, "a find and a touch")
}

fn touch_each<S: BuildHasher + Drop>(
    rt: &impl Runtime,
    table: &mut Table<S>,
    names: &[PinId],
    times: &mut Times,
) -> Result<u64> {
    let mut used: u64 = 0;
    for name in names {
        let start = Instant::now(rt)?;
        let was_there = touch_one(table, name);
        times.add(rt, start)?;
        used = used.saturating_add(u64::from(was_there));
    }
    Ok(used)
}

/// Finds the pin, and uses it where it is: whether it was there.
fn touch_one<S: BuildHasher + Drop>(table: &mut Table<S>, name: &PinId) -> bool {
    if table.uses() >= MANY {
        return false;
    }
    let Some(held) = table.find(name) else {
        return false;
    };
    table.keep(name, held, Moment::from_millis(0));
    true
}

/// Reports how many kinds there are, and how long it takes to walk over their counts and to list them.
fn count<S: BuildHasher + Drop>(rt: &impl Runtime, alloc: Global, table: &Table<S>) -> Result<()> {
    let start = Instant::now(rt)?;
    let (kinds, pins) = walked(table);
    let walked = start.elapsed(rt)?.as_micros();
    let start = Instant::now(rt)?;
    let listed = table.pin_counts(alloc)?.len();
    let listing = start.elapsed(rt)?.as_micros();
    println!(rt; "{kinds} kinds of {pins} pins, {listed} in a list")?;
    eprintln!(rt; "counts: walked over in {walked} us, listed in {listing} us")?;
    Ok(())
}

fn walked<S: BuildHasher + Drop>(table: &Table<S>) -> (u64, u64) {
    let mut kinds: u64 = 0;
    let mut pins: u64 = 0;
    for (_, count) in table.counts() {
        kinds = kinds.saturating_add(1);
        pins = pins.saturating_add(*count);
    }
    (kinds, pins)
}

/// Grows a table by names that were chosen to have one hash under the hasher of fixed seed, and prints how many hashes some of them
/// have.
fn grow_by_one_hash<S: BuildHasher + Drop>(
    rt: &impl Runtime,
    alloc: Global,
    hasher: S,
    pins: u32,
) -> Result<()> {
    let want = set_of_one_hash();
    let fixed = hashes(alloc, NAMES, want)?;
    println!(rt; "{NAMES} names with {fixed} hash under the fixed seed")?;
    let mut table = Table::new(alloc, settings(pins), hasher);
    let what = "growth, names of one hash under the fixed seed";
    make(rt, alloc, &mut table, (want, 0, pins), what)
}

/// Grows a table under the hasher of fixed seed.
fn grow_unseeded(rt: &impl Runtime, alloc: Global, pins: u32) -> Result<()> {
    let hasher = BuildHasherDefault::<FoldHasher>::new();
    let mut table = Table::new(alloc, settings(pins), hasher);
    let none = ServerSet::empty();
    make(rt, alloc, &mut table, (none, 0, pins), "growth, unseeded")
}

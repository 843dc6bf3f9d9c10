use crate::sketch::{cost_of, name_of, settings};
use lb_types::{Moment, ServerId};
use pin_table::{InsertFault, Table};
use std::alloc::{AllocError, Global};
use std::hash::{BuildHasher, BuildHasherDefault, FoldHasher};
use std::process::Abort;
use std::test::Fail;

/// What a row is about, the table's size, whether it keeps its pins, the steps, the pins that are left, oldest first, and how
/// many inserts were refused.
///
/// A digit uses the pin of that number where it is, or makes it at server 0; `a` moves pin 1 to server 1, `b` pin 2 and so on;
/// `-` pops the oldest.
type Row = (&'static str, u32, bool, &'static [u8], &'static [u8], u32);

const ROWS: &[Row] = &[
    (
        "a full table loses the oldest",
        3,
        false,
        b"1234",
        b"234",
        0,
    ),
    ("it loses one alone", 3, false, b"12345", b"345", 0),
    ("a kept pin is the last to go", 2, false, b"1213", b"13", 0),
    ("a moved pin is the last to go", 2, false, b"12a3", b"13", 0),
    (
        "a table of size 1 has the last pin",
        1,
        false,
        b"12233",
        b"3",
        0,
    ),
    ("a table of size 1 keeps its pin", 1, true, b"1221", b"1", 2),
    (
        "the only pin is used where it is",
        3,
        false,
        b"11a1",
        b"1",
        0,
    ),
    ("a full table may keep its pins", 2, true, b"1234", b"12", 2),
    ("those are used", 2, true, b"12131a", b"21", 1),
    ("a pop makes room", 2, true, b"12-3", b"23", 0),
    ("all pins are popped", 3, false, b"123---", b"", 0),
    ("a popped pin is made anew", 3, false, b"12-1", b"21", 0),
];

/// Uses the pin of this number where it is, or makes it at server 0: whether it wasn't refused.
fn used<S: BuildHasher + Drop>(
    table: &mut Table<S>,
    number: u32,
    now: Moment,
) -> Result<bool, AllocError> {
    if table.uses() >= 1000 {
        return Ok(false);
    }
    let name = name_of(number);
    match table.find(&name) {
        Some(held) => {
            table.keep(&name, held, now);
            Ok(true)
        }
        None => match table.insert(name, ServerId::new(0), cost_of(number), now) {
            Ok(()) => Ok(true),
            Err(refusal) if refusal.fault == InsertFault::TableFull => Ok(false),
            Err(_) => Err(AllocError),
        },
    }
}

/// Moves the pin of this number to server 1, where it is in the table.
fn moved<S: BuildHasher + Drop>(
    table: &mut Table<S>,
    number: u32,
    now: Moment,
) -> Result<(), AllocError> {
    if table.uses() >= 1000 {
        return Ok(());
    }
    let name = name_of(number);
    if let Some(held) = table.find(&name) {
        table.move_to(&name, held, ServerId::new(1), now)?;
    }
    Ok(())
}

/// Does the steps, and says how many inserts were refused.
fn run<S: BuildHasher + Drop>(table: &mut Table<S>, steps: &[u8]) -> Result<u32, AllocError> {
    let mut refused: u32 = 0;
    for (i, step) in steps.iter().enumerate() {
        let now = Moment::from_millis(i as u64);
        match *step {
            b'0'..=b'9' => {
                if !used(table, u32::from(*step - b'0'), now)? {
                    refused = refused.saturating_add(1);
                }
            }
            b'a'..=b'i' => moved(table, u32::from(*step - b'a') + 1, now)?,
            _ => {
                if table.uses() < 1000 {
                    let _ = table.pop_oldest();
                }
            }
        }
    }
    Ok(refused)
}

/// The numbers of the pins that are left, oldest first, as digits. The table is empty then.
fn left<S: BuildHasher + Drop>(alloc: Global, table: &mut Table<S>) -> Result<Vec<u8>, AllocError> {
    let mut digits = Vec::new(alloc);
    for _ in 0..table.len() {
        if table.uses() >= 1000 {
            return Ok(digits);
        }
        if let Some((name, _)) = table.pop_oldest() {
            let digit = b"0123456789"
                .iter()
                .find(|d| name == name_of(u32::from(**d) % 48));
            digits.push(digit.copied().unwrap_or(b'?'))?;
        }
    }
    Ok(digits)
}

/// Does the row's steps at a table that is new.
fn go(rt: &impl Abort, alloc: Global, row: &Row) -> Result<(), AllocError> {
    let (told, size, no_purge, steps, wanted, refusals) = *row;
    if size < 1 || size > 10 {
        return Ok(());
    }
    let hasher = BuildHasherDefault::<FoldHasher>::new();
    let mut table = Table::new(alloc, settings(size, no_purge), hasher);
    let refused = run(&mut table, steps)?;
    let digits = left(alloc, &mut table)?;
    assert_eq!(rt; (digits.as_slice(), refused), (wanted, refusals), "{told}");
    Ok(())
}

#[test]
fn steps_leave_these_pins(rt: HostRuntime) -> Result<(), Fail> {
    for row in ROWS {
        go(&rt, rt.alloc(), row)?;
    }
    Ok(())
}

/// Pins of one kind: their place, how many servers they want, what it costs to move one, and how many they are.
pub(crate) type Counted = (Option<usize>, usize, u16, u64);

// Pins 1 and 3 were moved to server 1, where their costs are 2 and 1; pins 2, 5 and 7 are at server 0 with costs 3, 3 and 2.
const COUNTED: &[Counted] = &[
    (Some(0), 0, 3, 1),
    (Some(0), 1, 2, 1),
    (Some(0), 1, 3, 1),
    (Some(1), 1, 1, 1),
    (Some(1), 1, 2, 1),
];

/// The kinds that the table counts.
pub(crate) fn counts_of<S: BuildHasher + Drop>(
    alloc: Global,
    table: &Table<S>,
) -> Result<Vec<Counted>, AllocError> {
    let mut counts = Vec::new(alloc);
    for (kind, count) in table.counts() {
        let place = kind.place.map(|server| server.index());
        counts.push((place, kind.want.len(), kind.cost, *count))?;
    }
    Ok(counts)
}

#[test]
fn versions_and_counts_of_a_small_table(rt: HostRuntime) -> Result<(), Fail> {
    let hasher = BuildHasherDefault::<FoldHasher>::new();
    let mut table = Table::new(rt.alloc(), settings(5, false), hasher);
    run(&mut table, b"13572ac")?;
    if table.version() < 1000 {
        table.bump();
    }
    let counts = counts_of(rt.alloc(), &table)?;
    let told = (table.version(), table.uses(), table.is_full());
    assert_eq!(rt; (counts.as_slice(), told), (COUNTED, (1, 7, true)));
    Ok(())
}

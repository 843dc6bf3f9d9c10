//! The table of pins, a running desk, and a desk that threads share: measured, and tried by threads that make random calls. The words are numbers: of
//! pins, and of what else the measurement asks for.

use crate::desk_trying::try_many_threads;
use anyhow::{Context, Result, bail};
use bench_parts::{measure_desk, measure_shared, measure_table};
use lb_types::MAX_PINS;
use std::alloc::Global;
use std::random::RandomSource;
use std::rt::Runtime;
use std::sync::Wait;
use std::thread::Threads;

/// What is measured or tried.
#[derive(Clone, Copy)]
pub(crate) enum What {
    Table,
    Desk,
    Shared,
    Threads,
}

pub(crate) fn run<R: Runtime + Threads + Wait + RandomSource + Sync>(
    rt: &R,
    alloc: Global,
    what: What,
    words: &[&str],
) -> Result<()> {
    match what {
        What::Table => measure_table(rt, alloc, number(words, 0)?),
        What::Desk => measure_desk(rt, alloc, number(words, 0)?, number(words, 1)?),
        What::Shared => measure_shared(rt, alloc, number(words, 0)?, number(words, 1)?),
        What::Threads => try_many_threads(rt, alloc, number(words, 0)?),
    }
}

/// The number that stands at this place, which is at most that of the pins of the largest table.
fn number(words: &[&str], place: usize) -> Result<u32> {
    let word = words.get(place).context("a number is missing")?;
    let number: u32 = word.parse().context("no number")?;
    if u64::from(number) > MAX_PINS {
        bail!("the number is too large");
    }
    Ok(number)
}

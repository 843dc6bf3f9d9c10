//! How long the text of a plan takes to be written by `write_plan`, through a buffered writer over memory, with the flush.
//!
//! The one word says how many rows the plan is to have (1000 without a word). What was written is compared with the text that
//! the plan was read from; rows, bytes and microseconds go to standard error.

use anyhow::Result;
use dual_cert::{Plan, read_plan, write_plan};
use lb_types::Counted;
use std::alloc::Global;
use std::io::{BufWriter, Write};
use std::rt::Runtime;
use std::time::Instant;

const SERVERS: u32 = 128;

pub(crate) fn run(rt: &impl Runtime, alloc: Global, words: &[&str]) -> Result<()> {
    let rows = match words.first() {
        Some(word) => word.parse()?,
        None => 1000,
    };
    let text = plan_text(alloc, rows)?;
    let plan = read_plan(alloc, text.as_bytes())?;
    measure(rt, alloc, &plan, text.as_bytes())
}

/// Writes the plan, which was read from this text.
fn measure(rt: &impl Runtime, alloc: Global, plan: &Plan, text: &[u8]) -> Result<()> {
    let mut bytes = Vec::with_capacity(alloc, text.len())?;
    let micros = write(rt, alloc, plan, &mut bytes)?;
    let rows = plan.rows().len();
    eprintln!(rt; "{rows} rows, {} bytes: {micros} us", bytes.len())?;
    let is_same = bytes.as_slice() == text;
    println!(rt; "{rows} rows, as they were read: {is_same}")?;
    Ok(())
}

/// Writes the plan, in so many microseconds.
fn write(rt: &impl Runtime, alloc: Global, plan: &Plan, bytes: &mut Vec<u8>) -> Result<u128> {
    let mut out = Counted::new(BufWriter::new(alloc, bytes)?);
    let start = Instant::now(rt)?;
    write_plan(plan, &mut out)?;
    out.flush()?;
    Ok(start.elapsed(rt)?.as_micros())
}

/// The text of a plan of so many rows, at most: pins of 129 places that may be at two servers each.
fn plan_text(alloc: Global, rows: u64) -> Result<String> {
    let mut text = String::from_str(alloc, "stickyplan 1\nversion 1\n")?;
    push_lines(alloc, &mut text, rows)?;
    Ok(text)
}

fn push_lines(alloc: Global, text: &mut String, rows: u64) -> Result<()> {
    for server in 0..SERVERS {
        let line = format!(in alloc; "server s{server} cap 1000000 price 0\n")?;
        text.push_str(&line)?;
    }
    let mut left = rows;
    push_rows(alloc, text, "-", &mut left)?;
    for place in 0..SERVERS {
        let place = format!(in alloc; "s{place}")?;
        push_rows(alloc, text, &place, &mut left)?;
    }
    text.push_str("end\n")?;
    Ok(())
}

/// Rows of pins at one place, a row for each pair of servers.
fn push_rows(alloc: Global, text: &mut String, place: &str, left: &mut u64) -> Result<()> {
    for second in 1..SERVERS {
        for first in 0..second {
            if *left == 0 {
                return Ok(());
            }
            *left = left.saturating_sub(1);
            let row = format!(in alloc; "row 1 {place} s{second} s{first},s{second}\n")?;
            text.push_str(&row)?;
        }
    }
    Ok(())
}

//! All measurements, in one program. The first word of the command line selects one, and the words after it are the
//! measurement's own: each has a module, whose head says what they mean.
//!
//! The word `all-small` takes each measurement once, on little input. What was done is printed, and is the same on every
//! machine; the times go to standard error.
#![tactic(auto)]

mod config_reading;
mod desk_trying;
mod desks;
mod farm_trying;
mod plan_writing;
mod planning;
mod relaying;
mod spreading;

use crate::desks::What;
use anyhow::{Context, Result, bail};
use std::alloc::Global;
use std::env;
use std::random::RandomSource;
use std::rt::Runtime;
use std::sync::Wait;
use std::thread::Threads;

/// The words of each measurement on little input.
const SMALL: &[&str] = &[
    "plan 8 40 1000 1 98 4 5 7",
    "spread 1000",
    "write-plan 1000",
    "relay 10",
    "read-config 16384",
    "small-farms views 2 3 0 2 views 2 3 1 2 views 3 2 0 1 sheets 2 3 0 1 sheets 3 2 0 1",
    "table 1000",
    "desk 1000 1000",
    "shared 1000 100",
    "threads 1000",
];

fn main(rt: HostRuntime) -> Result<()> {
    let words = env::args(&rt)?.skip(1).collect::<Vec<String>>(rt.alloc())?;
    run(&rt, rt.alloc(), &words)
}

fn run<R: Runtime + Threads + Wait + RandomSource + Sync>(
    rt: &R,
    alloc: Global,
    words: &[String],
) -> Result<()> {
    let words: Vec<&str> = words.iter().map(|word| word.as_str()).collect(alloc)?;
    if words.first().copied() == Some("all-small") {
        return measure_all(rt, alloc);
    }
    measure(rt, alloc, &words)
}

fn measure_all<R: Runtime + Threads + Wait + RandomSource + Sync>(
    rt: &R,
    alloc: Global,
) -> Result<()> {
    for line in SMALL {
        println!(rt; "== {line}")?;
        let words: Vec<&str> = line.split_whitespace().collect(alloc)?;
        measure(rt, alloc, &words)?;
    }
    Ok(())
}

/// Takes the measurement that the first word names.
fn measure<R: Runtime + Threads + Wait + RandomSource + Sync>(
    rt: &R,
    alloc: Global,
    words: &[&str],
) -> Result<()> {
    let (name, words) = words.split_first().context("which measurement?")?;
    let what = match *name {
        "plan" => return planning::run(rt, alloc, words),
        "spread" => return spreading::run(rt, alloc, words),
        "write-plan" => return plan_writing::run(rt, alloc, words),
        "relay" => return relaying::run(rt, alloc, words),
        "read-config" => return config_reading::run(rt, alloc, words),
        "small-farms" => return farm_trying::run(rt, alloc, words),
        "table" => What::Table,
        "desk" => What::Desk,
        "shared" => What::Shared,
        "threads" => What::Threads,
        _ => bail!(
            "plan, spread, write-plan, relay, read-config, small-farms, table, desk, shared, threads or all-small"
        ),
    };
    desks::run(rt, alloc, what, words)
}

//! The checker and the planner against all assignments of the pins, on all small farms.
//!
//! The words are jobs of five words each: `views` or `sheets`, how many servers and pins the farms have, the slice's number from 0
//! on, and the number of slices. For each job it prints how many farms were tried, and in the end how many plans the checker judged.
//! The first farm on which the two don't agree is printed, and the status is 1.

use anyhow::{Context, Result, bail};
use small_farms::{Bounds, Farms, PINS, Permitted, SERVERS, sheet_agrees, view_agrees};
use std::alloc::Global;
use std::rt::Runtime;

pub(crate) fn run(rt: &impl Runtime, alloc: Global, words: &[&str]) -> Result<()> {
    let mut plans = 0u64;
    for job in words.chunks(5) {
        let bounds = read_bounds(job)?;
        let tried = try_farms(rt, alloc, bounds)?;
        let kind = job.first().context("a job has a kind")?;
        println!(rt; "{kind} {} agree", tried.farms)?;
        plans = plans.saturating_add(tried.plans);
    }
    println!(rt; "plans {plans} judged")?;
    Ok(())
}

/// The job that five words spell.
fn read_bounds(words: &[&str]) -> Result<Bounds> {
    let permitted = match words.first().copied() {
        Some("views") => Permitted::OfView,
        Some("sheets") => Permitted::Any,
        _ => bail!("a job is views or sheets"),
    };
    let bounds = Bounds {
        permitted,
        servers: number(words, 1, "servers")? as usize,
        pins: number(words, 2, "pins")? as usize,
        slice: number(words, 3, "slice")?,
        slices: number(words, 4, "slices")?,
    };
    if bounds.servers > SERVERS || bounds.pins > PINS || bounds.slice >= bounds.slices {
        bail!("a farm has at most 3 servers and 5 pins, and a slice is below their number");
    }
    Ok(bounds)
}

/// The number that stands as this word of a job.
fn number(words: &[&str], place: usize, what: &'static str) -> Result<u64> {
    let word = words.get(place).context(what)?;
    Ok(word.parse().context(what)?)
}

/// How many farms were tried, and how many of their plans the checker judged.
#[derive(Clone, Copy)]
struct Tried {
    farms: u64,
    plans: u64,
}

/// Tries all farms of the slice. The first one that differs is printed.
fn try_farms(rt: &impl Runtime, alloc: Global, bounds: Bounds) -> Result<Tried> {
    let mut farms = Farms::new(alloc, bounds)?;
    let mut tried = Tried { farms: 0, plans: 0 };
    for _ in 0..u64::MAX {
        if let Some(farm) = farms.current()? {
            let agrees = match bounds.permitted {
                Permitted::OfView => view_agrees(alloc, farm)?,
                Permitted::Any => sheet_agrees(alloc, farm)?,
            };
            let Some(plans) = agrees else {
                println!(rt; "{farm:?} differs")?;
                bail!("a farm differs");
            };
            tried.farms = tried.farms.saturating_add(1);
            tried.plans = tried.plans.saturating_add(plans);
        }
        if !farms.advance(alloc)? {
            break;
        }
    }
    Ok(tried)
}

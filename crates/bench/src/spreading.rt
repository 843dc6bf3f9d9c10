//! How long `group`, `check` and `spread` take on a view. The one word says how many pins it has; half of them move, with
//! a plan of up to 1,000 rows. Making the view and the plan isn't timed. What was done is printed; the microseconds from
//! the start of `group` to the end of each of the three calls go to standard error.

mod big_farm;

use crate::spreading::big_farm::{big_plan, big_view};
use anyhow::{Context, Result, bail};
use cert_check::check;
use dual_cert_plan::Plan;
use pin_groups::{group, spread};
use pin_set::View;
use std::alloc::Global;
use std::rt::Runtime;
use std::time::Instant;

pub(crate) fn run(rt: &impl Runtime, alloc: Global, words: &[&str]) -> Result<()> {
    let word = words.first().context("how many pins?")?;
    let pins: u32 = word.parse().context("the number of pins is no number")?;
    let Some(view) = big_view(alloc, pins)? else {
        bail!("a view has no such number of pins");
    };
    let plan = big_plan(alloc, &view, pins)?;
    println!(rt; "{pins} pins, {} rows", plan.rows().len())?;
    take_times(rt, alloc, &view, &plan)
}

fn take_times(rt: &impl Runtime, alloc: Global, view: &View, plan: &Plan) -> Result<()> {
    let start = Instant::now(rt)?;
    let sheet = group(alloc, view, 0)?;
    let grouped = start.elapsed(rt)?;
    let Ok(score) = check(&sheet, plan) else {
        bail!("the plan isn't best");
    };
    let checked = start.elapsed(rt)?;
    let places = spread(alloc, view, plan)?;
    let spread = start.elapsed(rt)?;
    println!(rt;
        "best: unplaced {} moved {} cost {}",
        score.unplaced, score.moved, score.cost
    )?;
    println!(rt; "{} places", places.len())?;
    let (grouped, checked, spread) = (grouped.as_micros(), checked.as_micros(), spread.as_micros());
    eprintln!(rt;
        "microseconds from the start: group {grouped}, check {checked}, spread {spread}"
    )?;
    Ok(())
}

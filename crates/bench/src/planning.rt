//! How long a plan takes, from the text of a sheet to the text of its plan, and how long a check of that text.
//!
//! The words say what the sheet is like: servers, groups, pins, servers that are off, room in percent of the pins, servers that a pin
//! may go to, the most cost of a move, and a seed. The same is printed for each sheet: what was asked for, that the checker accepts
//! the written plan, and that pushes and looks stayed within what is proved. Times, pushes and looks go to standard error.

mod dice;
mod farm;

use crate::planning::farm::Farm;
use anyhow::Result;
use cert_check::check;
use dual_cert::{Plan, Sheet, read_plan, read_sheet, write_plan};
use flow_planner::plan;
use lb_types::Counted;
use std::alloc::Global;
use std::rt::Runtime;
use std::time::Instant;

/// How much work it was to find a plan.
#[derive(Clone, Copy)]
struct Work {
    pushes: u64,
    looks: u128,
}

pub(crate) fn run(rt: &impl Runtime, alloc: Global, words: &[&str]) -> Result<()> {
    let farm = Farm::read(words)?;
    let text = farm.text(alloc)?;
    println!(rt;
        "{} servers, {} groups, {} pins",
        farm.servers, farm.groups, farm.pins
    )?;
    measure(rt, alloc, &farm, text.as_bytes())
}

/// Plans what the text of the farm's sheet asks for, and prints what came of it.
fn measure(rt: &impl Runtime, alloc: Global, farm: &Farm, text: &[u8]) -> Result<()> {
    let mut bytes = Vec::with_capacity(alloc, text.len())?;
    let work = make_plan(rt, alloc, text, &mut bytes)?;
    tell_work(rt, farm, work)?;
    judge(rt, alloc, farm, text, &bytes)
}

/// Prints whether the second text is that of a plan for the sheet of the first one.
fn judge(rt: &impl Runtime, alloc: Global, farm: &Farm, sheet: &[u8], text: &[u8]) -> Result<()> {
    let sheet = read_sheet(alloc, sheet)?;
    let start = Instant::now(rt)?;
    let plan = read_plan(alloc, text)?;
    tell_verdict(rt, farm, &sheet, &plan, start)
}

/// Writes the text of a plan for the sheet that the text spells.
fn make_plan(rt: &impl Runtime, alloc: Global, text: &[u8], bytes: &mut Vec<u8>) -> Result<Work> {
    let start = Instant::now(rt)?;
    let sheet = read_sheet(alloc, text)?;
    let read = start.elapsed(rt)?.as_micros();
    plan_sheet(rt, alloc, &sheet, start, read, bytes)
}

/// Writes the text of a plan for the sheet, which was read in so many microseconds from the start.
fn plan_sheet(
    rt: &impl Runtime,
    alloc: Global,
    sheet: &Sheet,
    start: Instant,
    read: u128,
    bytes: &mut Vec<u8>,
) -> Result<Work> {
    let planned = plan(alloc, sheet)?;
    let found = start.elapsed(rt)?.as_micros();
    write(planned.plan(), bytes)?;
    let written = start.elapsed(rt)?.as_micros();
    eprintln!(rt; "microseconds from the start: read {read}, planned {found}, written {written}")?;
    Ok(Work {
        pushes: planned.pushes(),
        looks: planned.looks(),
    })
}

fn write(plan: &Plan, bytes: &mut Vec<u8>) -> Result<()> {
    let mut out = Counted::new(bytes);
    write_plan(plan, &mut out)?;
    Ok(())
}

/// Prints how much work it was, and whether it is within what is proved. That is a push a pin, and a look for each group and each two
/// options a push.
fn tell_work(rt: &impl Runtime, farm: &Farm, work: Work) -> Result<()> {
    let options = u128::from(farm.servers).saturating_add(2);
    let groups = u128::from(farm.groups).saturating_add(1);
    let search = options.saturating_mul(options).saturating_mul(groups);
    let bound = u128::from(work.pushes).saturating_mul(search);
    eprintln!(rt;
        "{} pushes, {} looks, of {bound} at most",
        work.pushes, work.looks
    )?;
    println!(rt;
        "at most one push a pin: {}",
        work.pushes <= u64::from(farm.pins)
    )?;
    println!(rt; "looks within the bound: {}", work.looks <= bound)?;
    Ok(())
}

/// Prints whether the checker accepts the plan for the sheet, with as many pins as the farm has. Reading the plan's text began at
/// `start`.
fn tell_verdict(
    rt: &impl Runtime,
    farm: &Farm,
    sheet: &Sheet,
    plan: &Plan,
    start: Instant,
) -> Result<()> {
    let verdict = check(sheet, plan);
    let checked = start.elapsed(rt)?;
    eprintln!(rt;
        "microseconds for the check of the text: {}",
        checked.as_micros()
    )?;
    let is_best = verdict.is_ok_and(|score| score.pins == u64::from(farm.pins));
    println!(rt; "the plan that was written is best: {is_best}")?;
    Ok(())
}

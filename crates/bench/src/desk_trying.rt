//! Random calls of threads at desks: what came of it, as it is printed.

use anyhow::Result;
use lb_desk_tried::try_threads;
use std::alloc::Global;
use std::random::RandomSource;
use std::rt::Runtime;
use std::sync::Wait;
use std::thread::Threads;

const THREADS: u32 = 8;

/// Lets threads make so many calls each.
pub(crate) fn try_many_threads<R: Runtime + Threads + Wait + RandomSource + Sync>(
    rt: &R,
    alloc: Global,
    calls: u32,
) -> Result<()> {
    let tried = try_threads(rt, alloc, THREADS as usize, u64::from(calls))?;
    let least = u64::from(THREADS).saturating_mul(u64::from(calls));
    println!(rt;
        "{THREADS} threads, {calls} calls each: {}",
        tried.calls >= least
    )?;
    println!(rt;
        "each connection that was opened was shut: {}",
        tried.opened == tried.closed
    )?;
    println!(rt; "the journal of one desk: {:?}", tried.faults.0)?;
    println!(rt; "the journal of the other: {:?}", tried.faults.1)?;
    eprintln!(rt;
        "{} calls, {} connections, {} and {} events",
        tried.calls, tried.opened, tried.events.0, tried.events.1
    )?;
    Ok(())
}

//! Random requests and faults, served by `serve_one` over memory, and each compared with a plain model of the profile.
//!
//! The first word says how many; a second one, with which round to begin. What was done is printed, and is the same on every machine;
//! how often each kind came goes to standard error. At the first round that ends otherwise than the model says, all of it is printed,
//! and the status is 1. Then rounds are served otherwise than the model assumes, to see that the comparison finds this. Rounds are
//! drawn by `draw_round`, the model is `owed`. Proved safe; no promise.
#![tactic(auto)]

mod body;
mod byte_wire;
mod dice;
mod draw_body;
mod draw_head;
mod draw_response;
mod draw_round;
mod head;
mod head_model;
mod kinds;
mod model;
mod owed;
mod planting;
mod round;
mod serving;
mod site;
mod tried_dialer;
mod trying;

use crate::planting::PLANTS;
use crate::trying::{seen, try_rounds};
use anyhow::{Context, Result, bail};
use std::env;

/// In how many rounds it is tried whether a difference is seen.
const PLANTED: u64 = 300;

fn main(rt: HostRuntime) -> Result<()> {
    let words = env::args(&rt)?.skip(1).collect::<Vec<String>>(rt.alloc())?;
    let count: u64 = words.first().context("how many requests?")?.parse()?;
    let first: u64 = match words.get(1) {
        Some(word) => word.parse()?,
        None => 0,
    };
    let tried = try_rounds(&rt, rt.alloc(), first, count)?;
    let (ends, sights) = tried.kinds.came();
    eprintln!(rt; "{}", tried.kinds.text(rt.alloc())?)?;
    println!(rt;
        "{} requests, {} of {} kinds of ends, {} of {} sights on the way",
        tried.rounds, ends.0, ends.1, sights.0, sights.1
    )?;
    match &tried.found {
        None => println!(rt; "serve_one and the model agree")?,
        // An error keeps the first bytes of its text alone.
        Some(found) => {
            println!(rt; "{found}")?;
            bail!("serve_one and the model differ");
        }
    }
    for plant in PLANTS {
        let seen = seen(&rt, rt.alloc(), plant, PLANTED)?;
        eprintln!(rt; "{plant:?}: seen in {seen} of {PLANTED} requests")?;
        println!(rt; "{plant:?} is seen: {}", seen > 0)?;
    }
    Ok(())
}

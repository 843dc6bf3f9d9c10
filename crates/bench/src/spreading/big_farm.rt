//! A farm of 128 servers, the first 8 of which aren't usable. Every other pin is at one of these and has to move; the
//! others stay at one of the next 40. The plan sends the pins of each lost server to all 120 usable ones alike.

use anyhow::{Result, bail};
use dual_cert::read_plan;
use dual_cert_plan::Plan;
use lb_types::{ServerId, ServerSet};
use pin_groups_spread::{PlainPin, numbered_view};
use pin_set::View;
use std::alloc::{AllocError, Global};

const SERVERS: u8 = 128;

const LOST: u8 = 8;

const KEPT: u8 = 40;

const USABLE: u32 = 120;

pub(crate) fn big_view(alloc: Global, pins: u32) -> Result<Option<View>, AllocError> {
    let mut usable = ServerSet::empty();
    for server in LOST..SERVERS {
        usable = usable.with(ServerId::new(server));
    }
    let plain = plain_pins(alloc, pins)?;
    numbered_view(alloc, usable, &[pins; SERVERS as usize], &plain)
}

fn plain_pins(alloc: Global, pins: u32) -> Result<Vec<PlainPin>, AllocError> {
    let mut plain = Vec::new(alloc);
    for number in 0..pins {
        let half = number / 2;
        let server = if number % 2 == 0 {
            half % u32::from(LOST)
        } else {
            u32::from(LOST) + half % u32::from(KEPT)
        };
        plain.push(PlainPin {
            place: Some(ServerId::new(server as u8)),
            want: ServerSet::empty(),
            cost: 1,
        })?;
    }
    Ok(plain)
}

/// The plan for the view of so many pins, at prices of 0: going anywhere costs each pin the same.
pub(crate) fn big_plan(alloc: Global, view: &View, pins: u32) -> Result<Plan> {
    let mut names = Vec::new(alloc);
    for server in view.servers() {
        names.push(str::from_utf8(server.name.as_bytes())?)?;
    }
    let text = plan_text(alloc, &names, pins)?;
    match read_plan(alloc, text.as_bytes()) {
        Ok(plan) => Ok(plan),
        Err(_) => bail!("the text is no plan's"),
    }
}

fn plan_text(alloc: Global, names: &[&str], pins: u32) -> Result<String, AllocError> {
    let mut text = String::from_str(alloc, "stickyplan 1\nversion 0\n")?;
    let (lost, usable) = names.split_at(names.len().min(usize::from(LOST)));
    add_servers(alloc, &mut text, lost, usable, pins)?;
    add_rows(alloc, &mut text, lost, usable, pins)?;
    text.push_str("end\n")?;
    Ok(text)
}

fn add_servers(
    alloc: Global,
    text: &mut String,
    lost: &[&str],
    usable: &[&str],
    pins: u32,
) -> Result<(), AllocError> {
    for name in lost {
        text.push_str(&format!(in alloc; "server {name} off\n")?)?;
    }
    for name in usable {
        text.push_str(&format!(in alloc; "server {name} cap {pins} price 0\n")?)?;
    }
    Ok(())
}

fn add_rows(
    alloc: Global,
    text: &mut String,
    lost: &[&str],
    usable: &[&str],
    pins: u32,
) -> Result<(), AllocError> {
    let set = joined(alloc, usable)?;
    for (place, name) in lost.iter().enumerate() {
        let leaving = share(pins - pins / 2, place, u32::from(LOST));
        for (to, new) in usable.iter().enumerate() {
            let row = row_text(alloc, share(leaving, to, USABLE), name, new, &set)?;
            text.push_str(&row)?;
        }
    }
    for (place, name) in usable.iter().enumerate().take(usize::from(KEPT)) {
        let staying = share(pins / 2, place, u32::from(KEPT));
        text.push_str(&row_text(alloc, staying, name, name, &set)?)?;
    }
    Ok(())
}

fn joined(alloc: Global, names: &[&str]) -> Result<String, AllocError> {
    let mut word = String::new(alloc);
    for name in names {
        if !word.is_empty() {
            word.push(',')?;
        }
        word.push_str(name)?;
    }
    Ok(word)
}

/// How many of `all` are numbered `place` where they are numbered 0 to `places` - 1 in turn.
fn share(all: u32, place: usize, places: u32) -> u32 {
    let more = all.checked_rem(places).unwrap_or(0) as usize;
    let each = all.checked_div(places).unwrap_or(0);
    if place < more {
        each.saturating_add(1)
    } else {
        each
    }
}

/// The line of a row, and nothing for no pins.
fn row_text(
    alloc: Global,
    count: u32,
    name: &str,
    new: &str,
    set: &str,
) -> Result<String, AllocError> {
    if count == 0 {
        return Ok(String::new(alloc));
    }
    format!(in alloc; "row {count} {name} {new} {set}\n")
}

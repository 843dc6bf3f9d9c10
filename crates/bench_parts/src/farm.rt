//! The farm of the desks that are measured, and requests for it.

use crate::numbered::{drawn, name};
use anyhow::Result;
use lb_desk_model::{Backend, Event, Request, RuleList};
use lb_desk_tried::backend_in;
use lb_types::Moment;
use std::alloc::{AllocError, Global};

/// Requests are made at so many servers in turn, and then at so many costs: so 1,000 kinds of pins.
pub(crate) const SERVERS: u32 = 100;

const COSTS: u32 = 10;

/// After how many milliseconds without a use a pin goes.
pub(crate) const EXPIRE: u64 = 3_600_000;

/// A backend of 128 servers, of which the last 28 are in maintenance, with a table for so many pins.
pub(crate) fn backend(alloc: Global, pins: u32) -> Result<Backend> {
    let mut text = format!(in alloc;
        "backend web\n  stick-table type string len 16 size {} expire 1h\n",
        pins.max(1)
    )?;
    for number in 0..128u32 {
        let off = if number < SERVERS { "" } else { " disabled" };
        text.push_str(&format!(in alloc; "  server s{number} 127.0.0.1:80{off}\n")?)?;
    }
    backend_in(alloc, &text)
}

/// A request with the key of this number, which no rule matches.
pub(crate) fn request(alloc: Global, number: u32) -> Result<Request, AllocError> {
    Ok(Request {
        key: Some(name(alloc, number)?.key),
        rules: RuleList::new(Vec::new(alloc)),
        cost: (number / SERVERS % COSTS) as u16 + 1,
        moment: Moment::from_millis(0),
    })
}

/// The requests of so many numbers, from the first one on.
pub(crate) fn requests(alloc: Global, first: u32, count: u32) -> Result<Vec<Event>, AllocError> {
    let mut requests = Vec::with_capacity(alloc, count as usize)?;
    for number in first..first.saturating_add(count) {
        requests.push(Event::Serve(request(alloc, number)?))?;
    }
    Ok(requests)
}

/// So many requests with keys drawn from those of the pins. The draws have numbers, from the first one on.
pub(crate) fn drawn_requests(
    alloc: Global,
    first: u32,
    count: u32,
    pins: u32,
) -> Result<Vec<Event>, AllocError> {
    let mut requests = Vec::with_capacity(alloc, count as usize)?;
    for draw in first..first.saturating_add(count) {
        requests.push(Event::Serve(request(alloc, drawn(draw, pins))?))?;
    }
    Ok(requests)
}

ghost use Rattle.std.specs.Prelude.{IfOk};
ghost use Rattle.lb_desk_step.specs.Worlds.{Answers};

use crate::desk::Desk;
use lb_desk_model::{Backend, Event, Reply};
use lb_desk_ports::Refused;
use std::alloc::Global;
use std::hash::BuildHasher;

/// Opens a desk for the backend, takes the events in their order, and gives their replies. It keeps no journal but the last entry.
///
/// Refused as soon as one of the events is, and when out of memory for the replies.
pub fn run_world<S: BuildHasher + Drop>(
    alloc: Global,
    backend: &Backend,
    events: Vec<Event>,
    hasher: S,
) -> Result<Vec<Reply>, Refused>
    ensures { IfOk result (λ replies. Answers backend.now events.items replies.items) }
{
    let mut desk = Desk::open(alloc, backend, 1, hasher)?;
    let mut replies = Vec::new(alloc);
    for event in events {
        let reply = desk.step(event)?;
        replies.push(reply)?;
    }
    Ok(replies)
}

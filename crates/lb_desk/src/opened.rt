ghost use Rattle.std.specs.Prelude.{IfOk};
ghost use Rattle.lb_desk.specs.Opened.{AnswersAs, OpensAs};

use lb_config::BackendConfig;
use lb_desk_backend::backend_of;
use lb_desk_model::{Event, Reply};
use lb_desk_ports::Refused;
use lb_desk_step::{Desk, run_world as run_backend};
use std::alloc::{AllocError, Global};
use std::hash::BuildHasher;

/// The desk of a backend of the configuration, at its opening: no pin, no connection, no result of a check, version 0. Its journal
/// keeps as many of the newest entries as the configuration says, 1 to 1000000; the memory for them is taken here, whole. The only
/// error is out of memory.
///
/// The hasher finds pins, and no promise depends on it: with a seeded one nobody can choose keys that collide.
pub fn open<S: BuildHasher + Drop>(
    alloc: Global,
    config: &BackendConfig,
    hasher: S,
) -> Result<Desk<S>, AllocError>
    ensures { IfOk result (λ desk. OpensAs config.now desk) }
{
    let backend = backend_of(alloc, config)?;
    Desk::open(alloc, &backend, config.journal(), hasher)
}

/// Opens a desk for a backend of the configuration, takes the events in their order, and gives their replies. It keeps no journal but
/// the last entry.
///
/// Refused as soon as one of the events is, and when out of memory.
pub fn run_world<S: BuildHasher + Drop>(
    alloc: Global,
    config: &BackendConfig,
    events: Vec<Event>,
    hasher: S,
) -> Result<Vec<Reply>, Refused>
    ensures { IfOk result (λ replies. AnswersAs config.now events.items replies.items) }
{
    let backend = backend_of(alloc, config)?;
    run_backend(alloc, &backend, events, hasher)
}

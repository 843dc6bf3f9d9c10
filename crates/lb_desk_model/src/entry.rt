use crate::{Event, Reply};
use std::alloc::AllocError;

/// One step of a backend, as its journal keeps it.
#[derive(Debug, Drop, PartialEq, Eq)]
pub struct Entry {
    pub event: Event,
    pub reply: Reply,
}

impl Clone for Entry {
    ghost use Rattle.std.specs.Prelude.{◌≡◌};
    ghost use Rattle.lb_desk_model.specs.Copies.{IsPlainEvent, IsPlainReply};

    ghost is_clone = { λ entry copy. copy ≡ entry };

    ghost is_infallible = { λ entry. IsPlainEvent entry.event × IsPlainReply entry.reply };

    /// The same entry, for what its event and its reply cost to copy.
    fn clone(&self) -> Result<Entry, AllocError> {
        Ok(Entry {
            event: self.event.clone()?,
            reply: self.reply.clone()?,
        })
    }
}

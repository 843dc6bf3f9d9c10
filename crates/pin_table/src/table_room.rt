use crate::Held;
use lb_types::{Moment, ServerSet};
use pin_recent::{CopyRoom, Rests};
use pin_set::{PinId, PinKey};
use std::alloc::{AllocError, Global};
use std::net::Ipv4Addr;

/// Memory for a copy of a table. A copy that finds too little takes more, so how much there is decides only what it costs.
#[derive(Drop)]
pub struct TableRoom {
    pub(crate) pins: CopyRoom<PinId, Held>,
}

impl TableRoom {
    /// No memory. It allocates nothing.
    pub fn empty(alloc: Global) -> Self {
        TableRoom {
            pins: CopyRoom::empty(alloc),
        }
    }

    /// Memory for so many pins, which was written to: the system gives memory at the first write to it, and that takes as long as a
    /// copy does. So it is best made before a lock is taken. It costs that, with these rests. The only error is out of memory.
    pub fn touched<P: Rests>(alloc: Global, pins: usize, rests: &P) -> Result<Self, AllocError> {
        let name = PinId {
            key: PinKey::Ipv4(Ipv4Addr::from_bits(0)),
            want: ServerSet::empty(),
        };
        let held = Held {
            place: None,
            cost: 1,
            last_use: Moment::from_millis(0),
        };
        Ok(TableRoom {
            pins: CopyRoom::touched(alloc, &name, held, pins, rests)?,
        })
    }
}

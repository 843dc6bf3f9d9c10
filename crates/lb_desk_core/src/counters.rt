ghost use Rattle.std.specs.Prelude.{◌≡◌, length, IfOk};
ghost use Rattle.lb_desk_model.specs.Worn.{open_at};

use crate::backend_core::Core;
use lb_types::ServerId;
use pin_table::{TableCopy, TableRoom};
use std::alloc::{AllocError, Global};
use std::hash::BuildHasher;

impl<S: BuildHasher> Core<S> {
    /// How often the view that planners see has changed.
    pub fn version(&self) -> u64
        ensures { result ≡ self.now.shown.version }
    {
        self.parts.table.version()
    }

    /// How many requests were served through a pin.
    pub fn uses(&self) -> u64
        ensures { result ≡ self.now.uses }
    {
        self.parts.table.uses()
    }

    /// How many pins there are; 0 where the backend has no table.
    pub fn pins(&self) -> usize
        ensures { result ≡ length self.now.shown.pins }
    {
        self.parts.table.len()
    }

    /// A copy of the pins, which gives them out in order of last use; of none where the backend has no table.
    ///
    /// It costs one pass through the pins as they lie in memory, with a copy of each key. It allocates what the room lacks for the pins,
    /// and memory for the keys that are text. The only error is out of memory.
    pub fn copy_table(&self, alloc: Global, room: TableRoom) -> Result<TableCopy, AllocError>
        ensures exact { IfOk result (λ copy. copy ≡ self.now.shown.pins) }
    {
        self.parts.table.copy(alloc, room)
    }

    /// How many connections are open at the server; 0 where there is no such server.
    pub fn connections(&self, server: ServerId) -> u64
        ensures { result ≡ open_at self.now.shown server }
    {
        self.parts.book.connections(server)
    }
}

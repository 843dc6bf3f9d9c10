//! A shared desk of the seats' backend, from its opening on.
ghost use Rattle.std.specs.Prelude.{◌≡◌, IfOk};

use lb_desk_model::{Backend, Entry};
use lb_desk_shared::{Naming, SharedDesk};
use lb_desk_step::Desk;
use lb_desk_tie::Opened;
use std::alloc::{AllocError, Global};
use std::hash::BuildHasher;

/// Its journal has room for more entries than any test makes.
pub(crate) const JOURNAL: u32 = 1000;

/// The desk of number 0.
pub(crate) fn shared<S: BuildHasher + Drop, B: Naming>(
    alloc: Global,
    opened: Opened<Entry>,
    backend: &Backend,
    hasher: S,
) -> Result<SharedDesk<S, B>, AllocError>
    requires table { opened ≡ B.table_of 0 }
    requires opening { backend.now ≡ B.opening 0 }
    requires size { B.journal_size 0 ≡ JOURNAL }
    ensures { IfOk result (λ desk. desk ≡ 0) }
{
    let desk = Desk::open(alloc, backend, JOURNAL, hasher)?;
    Ok(SharedDesk::of(opened, 0, desk))
}

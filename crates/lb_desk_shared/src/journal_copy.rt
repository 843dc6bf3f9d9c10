ghost use Rattle.std.specs.Prelude.{◌≡◌, IfOk};

use lb_desk_model::Entry;
use lb_desk_tail::Tail;
use std::alloc::{AllocError, Global};

/// A copy of a journal as it stood at one moment.
#[derive(Debug, Drop)]
pub struct JournalCopy {
    /// The number of the first entry, which is how many were forgotten.
    pub first: u64,
    /// The entries from that one on, in their order.
    pub entries: Vec<Entry>,
}

impl JournalCopy {
    /// A copy of the journal. It costs a copy of each entry.
    pub(crate) fn of(alloc: Global, journal: &Tail<Entry>) -> Result<JournalCopy, AllocError>
        ensures first { IfOk result (λ copy. copy.first ≡ journal.now.first) }
        ensures entries { IfOk result (λ copy. copy.entries.items ≡ journal.now.entries) }
    {
        let (older, newer) = journal.as_slices();
        let mut entries = Vec::with_capacity(alloc, journal.len())?;
        entries.extend_with_clones(older)?;
        entries.extend_with_clones(newer)?;
        Ok(JournalCopy {
            first: journal.first(),
            entries,
        })
    }
}

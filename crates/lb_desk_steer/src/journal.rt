use lb_desk_model::Entry;

/// The newest entries of a backend's journal, in memory of their own.
#[derive(Debug, Drop)]
pub struct JournalCopy {
    /// The number of the first of them, which is how many entries the journal had forgotten.
    pub first: u64,
    /// The entries, the oldest first. Their numbers follow one another.
    pub entries: Vec<Entry>,
}

use pin_set::PinId;

/// Why a pin wasn't made.
#[derive(Clone, Copy, Debug, PartialEq, Eq)]
pub enum InsertFault {
    /// The table has as many pins as it may, and keeps them.
    TableFull,
    /// There is no memory.
    OutOfMemory,
}

/// A pin that wasn't made: its name, and why.
#[derive(Debug, Drop, PartialEq, Eq)]
pub struct NotInserted {
    pub name: PinId,
    pub fault: InsertFault,
}

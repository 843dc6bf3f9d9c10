//! The pins of one backend, in order of last use, with how many there are of each place, wanted servers and cost.
//!
//! Promised: a look-up, a use, a move, an insert and a purge give exactly the pins that they should, whatever the hasher. The moves
//! of a plan send as many pins of each kind to each place as they say. A call that is refused memory changes nothing. The counts are
//! those of the pins. Start at `Table`, whose words are in `specs/Tables.antt`. No clause sees how pins are found or counted.
#![tactic(auto)]

mod counted_pins;
mod held;
mod insert_fault;
mod placing;
mod table;
mod table_copy;
mod table_kind;
mod table_room;

pub use held::Held;
pub use insert_fault::{InsertFault, NotInserted};
pub use pin_recent::{NoRest, Rests};
pub use table::Table;
pub use table_copy::TableCopy;
pub use table_kind::TableKind;
pub use table_room::TableRoom;

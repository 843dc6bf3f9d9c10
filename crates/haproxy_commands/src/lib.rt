//! Commands for HAProxy's admin socket that move entries of a stick table to other servers.
//!
//! Promised: `commands_text` writes two commands for each move, `clear table` and `set table`. What HAProxy reads of the text are
//! exactly these, whatever bytes the keys have. Carried out on a table they give the moved keys their servers, and leave all other
//! entries as they were. A name or a key that no command can name is refused. Start at `commands_text`. How HAProxy reads is in
//! `specs/Reading.antt`, and what its table is then in `specs/Tables.antt`.
#![tactic(auto)]

mod bytes;
mod fault;
mod laws;
mod moves;
mod text;
mod writing;

pub use fault::CommandsFault;
pub use laws::{moves_are_made, names_are_written_as_they_are};
pub use moves::Move;
pub use text::commands_text;

//! What comes back to a backend of a file of pins when a process starts, and what is written of its table.
//!
//! Promised: `returned` gives exactly the pins of the definition `returned_pins` in `specs/Returns.antt`, and set in their order they are
//! the table (`returned_pins_are_the_table`). `return_pins` sets them through a port. `saved_pin` gives what a file says of a pin of a
//! table, by `specs/Saves.antt`, and that comes back (`saved_pins_come_back`). Start at `specs/Returns.antt`.
#![tactic(auto)]

mod ages;
mod back;
mod coming_back;
mod kept;
mod laws;
mod putting;
mod returning;
mod saving;
mod stay;

pub use ages::greatest_age;
pub use back::Returned;
pub use laws::{returned_pins_are_the_table, saved_pins_come_back};
pub use putting::return_pins;
pub use returning::returned;
pub use saving::saved_pin;

//! The measurements of a table, of a desk and of a desk that threads share, which the program `bench` takes. Also what they have in
//! common: how long calls take, how much memory is resident, and names of pins by number.
//!
//! What was done is printed, and is the same on every machine; the times go to standard error. Promised: nothing but that it is safe.
//! Start at `measure_desk`.
#![tactic(auto)]

mod desk;
mod farm;
mod memory;
mod numbered;
mod shared;
mod table;
mod times;

pub use desk::measure_desk;
pub use memory::{grown, resident};
pub use numbered::{drawn, drawn_names, hashes, name, names, set_of_one_hash};
pub use shared::measure_shared;
pub use table::measure_table;
pub use times::{Times, tell_clock};

//! The table of pins: worked rows, worked plans whose moves it makes, and random calls beside a plain list, with both hashers. The
//! same of the map in order of last use that it is made of. Counted pins with their sheet, and plans that are shared out among counts
//! and handed out pin by pin.
//!
//! Tests of `pin_table`, `pin_recent` and `pin_moves`, and `placed`, which tests at run time what `pin_moves` and `Table::set_places`
//! ask for. Start at `rows`; `random` has the plain list.
#![tactic(auto)]

mod checked;
#[cfg(test)]
mod placing;
mod plans;
#[cfg(test)]
mod random;
#[cfg(test)]
mod recent;
#[cfg(test)]
mod rows;
#[cfg(test)]
mod sharing;
#[cfg(test)]
mod sheeted;
#[cfg(test)]
mod sketch;

pub use plans::placed;

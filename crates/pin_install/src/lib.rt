//! A plan installed in a table of pins: checked against the table's view, and then each pin where the plan sends it.
//!
//! Promised: a plan is refused exactly as the check refuses it for the sheet of the table's view, and changes nothing then. One that
//! is accepted sends as many pins of each kind to each place as it says, with the check's score, and changes nothing else of the
//! table. Start at `install`; the words are in `specs/Installed.antt`. Private to the `lb_desk` crates.
#![tactic(auto)]

mod installing;

pub use installing::install;

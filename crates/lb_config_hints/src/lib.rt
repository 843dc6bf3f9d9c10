//! What may help with a configuration: hints for its faults, as the word that was probably meant; what is valid in it and surely not meant; what
//! means something else to HAProxy.
//!
//! Promised: a hint appends the words of `specs/Hints.antt`. Which hint a fault gets, what a configuration is warned of, and which differences are
//! found, is no promise. Start at `hint_for`, `concerns_of` and `push_differences`. Private to `lb_cli`.
#![tactic(auto)]

mod concerns;
mod differences;
mod faults;
mod hint;
mod known;
mod names;
mod near;

pub use concerns::concerns_of;
pub use differences::push_differences;
pub use faults::hint_for;
pub use hint::Hint;

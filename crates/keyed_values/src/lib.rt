//! Values under keys that the collection picks, for values that can't be dropped.
//!
//! Promised: a key keeps its value until that is taken. A value gets a key that none has, and one that is put in right after another was
//! taken gets that one's key. No call allocates but the first. Start at `Keyed`, whose words are in `specs/Keys.antt`.
#![tactic(auto)]

mod keyed;

pub use keyed::Keyed;

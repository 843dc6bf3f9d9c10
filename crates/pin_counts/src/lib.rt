//! How many there are of each kind, kept as things come, go and change, in rising order of kind.
//!
//! Promised: every call changes the number of exactly the kinds that it names. What `Counts::iter` gives are the kinds of
//! which there is at least one, each once, in rising order, with their numbers. Start at `Counts`, whose words are in
//! `specs/Counts.antt`.
#![tactic(auto)]

mod counts;

pub use counts::Counts;

//! Worked rows of a running desk and of its parts: one list of events, each with the reply that a backend owes it, some for a server that
//! there is not; entries, events, backends and refusals as values; a journal's tail and counts of kinds.
//!
//! Tests alone. Start at `entries`, which has the list.
#![tactic(auto)]

#[cfg(test)]
mod answers;
#[cfg(test)]
mod backends;
#[cfg(test)]
mod copies;
#[cfg(test)]
mod counts;
#[cfg(test)]
mod entries;
#[cfg(test)]
mod refusals;
#[cfg(test)]
mod tails;

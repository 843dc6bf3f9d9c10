//! Calls that are refused memory: each says so, changes nothing, and gives what is owed once there is memory.
//!
//! Tests alone. `bench/refused` runs each of them once for each request for memory that its call makes, and refuses that one. Start
//! at `steps`, and at `marks` for how a test marks its call.
#![tactic(auto)]

#[cfg(test)]
mod farm;
#[cfg(test)]
mod marks;
#[cfg(test)]
mod plans;
#[cfg(test)]
mod requests;
#[cfg(test)]
mod seats;
#[cfg(test)]
mod steps;
#[cfg(test)]
mod tables;

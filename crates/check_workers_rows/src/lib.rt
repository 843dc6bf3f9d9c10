//! Rounds of checks over scripted probes, clocks and ports, the loop of a thread that makes them, probes over sockets, and what the
//! configuration says of checks.
//!
//! Tests alone. Start at `rounds`.
#![tactic(auto)]

#[cfg(test)]
mod configured;
#[cfg(test)]
mod loops;
#[cfg(test)]
mod probes;
#[cfg(test)]
mod rounds;

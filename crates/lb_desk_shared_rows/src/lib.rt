//! Worked rows of the desk of many threads: what several threads did at it is done again by one, and must be answered the same. And
//! worked rows of seats at such a desk, among them a planner that clients come in beside.
//!
//! Tests alone, of `lb_desk_shared`, `lb_desk_seat` and `lb_desk_planner`. Start at `threads` and `calls`.
#![tactic(auto)]

#[cfg(test)]
mod calls;
#[cfg(test)]
mod closings;
#[cfg(test)]
mod desks;
#[cfg(test)]
mod farms;
#[cfg(test)]
mod gates;
#[cfg(test)]
mod kinds;
#[cfg(test)]
mod telling;
#[cfg(test)]
mod thread_calls;
#[cfg(test)]
mod thread_farms;
#[cfg(test)]
mod threads;

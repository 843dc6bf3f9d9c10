//! Connections of clients and of operators: what accepts them, what they have, and when that ends.
//!
//! Tests alone. Start at `clients`; `site` has what several of them share.
#![tactic(auto)]

#[cfg(test)]
mod clients;
#[cfg(test)]
mod guests;
#[cfg(test)]
mod heads;
#[cfg(test)]
mod limits;
#[cfg(test)]
mod operators;
#[cfg(test)]
mod scripted;
#[cfg(test)]
mod site;

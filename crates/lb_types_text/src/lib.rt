//! What every reader of a text shares: bytes cut at a mark, and numbers in decimal digits.
//!
//! Promised: the parts are exactly those between the marks, and a number is read exactly where it is spelled as one.
//! Nothing here allocates. Start at `Parts`; the laws on lists for the crates above are in `proofs/`.
#![tactic(auto)]

mod numbers;
mod parts;

pub use numbers::{Digits, numeral};
pub use parts::{Parts, cut};

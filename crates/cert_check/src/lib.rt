//! The check of a plan: whether it is made for a sheet, lawful, and shown best by its prices.
//!
//! Promised: `check` answers the verdict of `specs/Verdict.antt`, a score or the first of four faults that holds. Where it answers a
//! score, every assignment that agrees with the plan is best and has that score. That holds at the sheet's capacities and for every
//! view that the sheet stands for. It believes nothing that the plan's maker says: prices of any origin either prove a plan best or
//! don't. The laws that this rests on are functions that do nothing, whose contracts hold whatever runs. Start at
//! `specs/Verdict.antt`.
#![tactic(auto)]

mod bound;
mod fault;
mod lawful;
mod own_sheet;
mod score;
mod verdict;

pub use cert_check_law::{
    agreeing_are_best, best_at_bound, cost_order, sums_by_count, weak_duality,
};
pub use fault::CheckFault;
pub use verdict::check;

//! The laws that the check of a plan rests on, and which sheet stands for a view. Private to `cert_check`, `pin_groups`
//! and the crates above them.
//!
//! Each call does nothing: its contract is a law, which holds whatever runs. Start at `specs/Laws.antt`, then
//! `specs/Sheets.antt`; the lemmas that upper crates cite are in `proofs/`.
#![tactic(auto)]

mod laws;
mod sheets;

pub use laws::{agreeing_are_best, best_at_bound, cost_order, sums_by_count, weak_duality};
pub use sheets::views_have_the_sheets_room;

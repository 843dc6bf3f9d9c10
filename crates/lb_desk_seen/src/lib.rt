//! What a running desk needs of the machine's laws: what it shows of a state, what it counts, and what holds of its log.
//! Private to the `lb_desk` crates.
//!
//! Promised: each install of any log since a backend's opening is stale exactly where the view has changed, or refused as the
//! check refuses it, or best. Each call does nothing: its contract is a law. Start at `specs/Logs.antt`.
#![tactic(auto)]

mod counts;
mod logs;
mod shown;

pub use counts::{counts_fit, pins_are_in_order_of_use};
pub use logs::{accepted_plans_are_installed, headline_of_logs};
pub use shown::{changes_are_seen, desks_go_on, replies_tell_changes};

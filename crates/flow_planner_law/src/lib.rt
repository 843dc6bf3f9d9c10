//! Why a checker accepts the planner's answer: a repaired state, written as a plan, is made for its sheet, lawful, and shown
//! best by its prices.
//!
//! Start at `specs/Accepted.antt`: the network of a sheet (`network_of`), a repaired state (`IsRepaired`), a plan that is
//! written of it (`IsWritten`), and an accepted plan (`IsAccepted`). The one call, `plans_are_accepted`, does nothing: its
//! contract is the law of that file. Private to `flow_planner`.
#![tactic(auto)]

mod laws;

pub use laws::plans_are_accepted;

//! Receipts: every call that a journal records has a number, and the callers can show at the end that all of them are
//! in one history, each at its own number.
//!
//! A `Keeper` lies beside a journal, under one lock, and knows the whole history as ghost data. Each caller has a `Pass`,
//! which keeps the receipts of its calls, and a sight of the history for each look at it. `Keeper::settle` takes all passes back, and shows
//! that their receipts share out the history, and that each sight is a beginning of it.
//!
//! Promised: `Keeper::record` adds the entry to the history and its receipt to the pass, whose receipts are all in the history
//! before it (`sound`); `Keeper::see` gives the pass a sight of it; `Keeper::settle`: `share`, `sights`. No history, entry, receipt or
//! sight exists at run time. Start at `Keeper`; the words are in `specs/Receipts.antt`.
#![tactic(auto)]

mod keeper;
mod laws;
mod opened;
mod pass;
mod steps;
mod tables;
mod view;

pub use keeper::Keeper;
pub use laws::no_two_share_a_number;
pub use opened::Opened;
pub use pass::Pass;
pub use tables::Tables;

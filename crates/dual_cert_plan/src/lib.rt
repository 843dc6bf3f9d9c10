//! Sheets and plans: what a planner is asked, and what it answers with prices that prove the answer.
//!
//! Promised: each sheet and each plan keeps the rules of `specs/Sheets.antt` and `specs/Plans.antt`, however it was made,
//! and `Plan::sheet` gives the sheet that the plan speaks of. Start there.
#![tactic(auto)]

mod plan;
mod server;
mod sheet;

pub use plan::Plan;
pub use server::{PricedServer, Server};
pub use sheet::Sheet;

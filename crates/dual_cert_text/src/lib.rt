//! Texts of plans: each plan has one text, and each text that is no plan's has a first fault.
//!
//! Promised: `read_plan` gives a plan exactly where the text is the plan's spelling, and else the text's first fault; no
//! spelling begins another (`one_text`). The spelling is in `specs/Spellings.antt`, the reading with its faults in
//! `specs/Texts.antt` and `specs/PlanTexts.antt`. Start at `read_plan`.
//!
//! Private to `dual_cert`. Texts of sheets have heading, server lines, places, sets and costs alike, so the modules that
//! read these are public for the crate `dual_cert_sheet`.
#![tactic(auto)]

mod fault;
pub mod heading;
pub mod kind_words;
mod plan_draft;
mod plan_text;
mod row_line;
pub mod server_line;
pub mod words;

pub use dual_cert_plan::{Plan, PricedServer, Server, Sheet};
pub use fault::{ReadError, TextFault};
pub use plan_text::{a_beginning_is_truncated, a_fault_stays, one_text, read_plan};

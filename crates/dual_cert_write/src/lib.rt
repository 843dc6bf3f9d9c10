//! Writing the text of a plan.
//!
//! Promised: `write_plan` writes the plan's one spelling, or else a write failed and a beginning of the spelling went out.
//! The spelling is that of the crate `dual_cert_text`, in its `specs/Spellings.antt`. Nothing here allocates. Start at
//! `write_plan`. Private to `dual_cert`.
//!
//! A sheet is written in the same pieces, which are public for the crate `dual_cert_sheet_write`. `sending` sends words
//! and lines until a write fails, and `words` spells what lines of plans and of sheets share.
#![tactic(auto)]

mod plan_text;
pub mod sending;
pub mod words;
mod write_failed;

pub use plan_text::write_plan;
pub use write_failed::WriteFailed;

//! Texts of plans and of sheets, both ways.
//!
//! Promised: each plan and each sheet has one text. `read_plan` and `read_sheet` give what a text spells, or the text's
//! first fault. `write_plan` and `write_sheet` write it to a `Counted` writer, or else a write failed and a beginning of
//! the text went out.
//!
//! This crate re-exports four for the crates above: `dual_cert_text` and `dual_cert_sheet` read, `dual_cert_write` and
//! `dual_cert_sheet_write` write. Start at `read_plan`.
#![tactic(auto)]

pub use dual_cert_plan::{Plan, PricedServer, Server, Sheet};
pub use dual_cert_sheet::{never_a_plan, one_text as one_sheet_text, read_sheet};
pub use dual_cert_sheet_write::write_sheet;
pub use dual_cert_text::{ReadError, TextFault, one_text as one_plan_text, read_plan};
pub use dual_cert_write::{WriteFailed, write_plan};

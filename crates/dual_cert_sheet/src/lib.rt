//! Texts of sheets: each sheet has one text, and each text that is no sheet's has a first fault.
//!
//! Promised: `read_sheet` gives a sheet exactly where the text is the sheet's spelling, and else the text's first fault. No
//! spelling begins another (`one_text`), and none is a plan's (`never_a_plan`). The spelling is in
//! `specs/SheetSpellings.antt`, the reading with its faults in `specs/SheetTexts.antt`. Start at `read_sheet`. Private to
//! `dual_cert`.
#![tactic(auto)]

mod group_line;
mod sheet_draft;
mod sheet_text;

pub use dual_cert_plan::{Server, Sheet};
pub use dual_cert_text::{ReadError, TextFault};
pub use sheet_text::{a_beginning_is_truncated, a_fault_stays, never_a_plan, one_text, read_sheet};

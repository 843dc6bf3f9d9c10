//! Writing the text of a sheet.
//!
//! Promised: `write_sheet` writes the sheet's one spelling, or else a write failed and a beginning of the spelling went out.
//! The spelling is that of the crate `dual_cert_sheet`, in its `specs/SheetSpellings.antt`. Nothing here allocates. Start
//! at `write_sheet`. Private to `dual_cert`.
#![tactic(auto)]

mod sheet_text;

pub use dual_cert_write::WriteFailed;
pub use sheet_text::write_sheet;

//! Lenient texts of sheets: what a text means, and the first fault of one that means nothing.
//!
//! Promised: `format_sheet` gives the sheet that the text means, or the text's first fault. What a text says is in
//! `specs/Texts.antt`, and which sheet it means in `specs/Meanings.antt`. Start at `format_sheet`.
#![tactic(auto)]

mod format_text;
mod group_line;
mod merging;
mod reading;
mod server_line;
mod words;

pub use format_text::{format_sheet, one_sheet_for_a_text};

//! Scripts, read line by line, so that memory holds a line or a plan's text and not the script.
//!
//! Promised: each line is given with its number, and a plan's text with all its lines, for readers that know their bytes. Start at
//! `ScriptLines`; `specs/Lines.antt` says what a line is. Private to `lb_replay`.
#![tactic(auto)]

mod script_lines;

pub use script_lines::ScriptLines;

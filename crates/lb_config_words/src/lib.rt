//! The lines of a configuration as lists of words: quotes, escapes and comments are resolved, and nothing else is judged.
//!
//! Promised: `read_lines` gives exactly the lines that `specs/Lines` defines, or the text's own fault. A line whose spelling
//! breaks has the words before the break and then the fault, so that a fault at an earlier word can come first. Start at
//! `read_lines`; what a byte stands for is in `specs/Pieces`. Private to the crates `lb_config..`.
#![tactic(auto)]

mod fault;
mod line;
mod piece;
mod spelling;
mod text;
mod word;

pub use fault::{SpellingFault, TextFault, WordsFault};
pub use line::Line;
pub use text::read_lines;
pub use word::Word;

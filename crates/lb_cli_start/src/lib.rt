//! How a program begins whose words are those of `lb_cli_words`: the words of its command line, and the job that they ask for.
//!
//! Promised of `asked_job`: a job is given only for words that are its row of the table of commands. Where words give none, what there
//! is to say was printed, and the status to end with is 0 only for words that ask for help, and 1 for words that are a row. Start
//! there. Private to the programs, whose `main` alone stands above it.
#![tactic(auto)]

mod asked;
mod words;

pub use asked::asked_job;
pub use words::{command_line, texts_of};

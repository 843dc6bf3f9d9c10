//! The words of the command line.
//!
//! Promised of `read_words`: exactly the words that are a row of the table of commands give its job, unless memory runs out.
//! Of the others, exactly those that ask for help give help's text, and the rest the text of a mistake.
//! The table is `specs/Table.antt`, and how words are read is `specs/Words.antt`. The words are read by the table alone
//! (`table`); `clap` gives the text of the help and of what is wrong. Start at `read_words`.
#![tactic(auto)]

mod commands;
mod error;
mod job;
mod operands;
mod own_option;
mod run_options;
mod table;
mod word;
mod words;

pub use clap::Error;
pub use clap::error::ErrorKind;
pub use error::exit_status;
pub use job::Job;
pub use words::read_words;

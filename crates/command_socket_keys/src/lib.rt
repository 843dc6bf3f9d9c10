//! Keys of pins as operators write them: the words that `show table` prints for them, read back.
//!
//! Promised: `read_key` gives the key that a word is in a table, as `specs/Keys.antt` defines it, or says that it is none. Start there.
#![tactic(auto)]

mod reading;

pub use reading::read_key;

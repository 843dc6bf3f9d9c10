//! A plan as two tables for a reader, as `stickylb plan --table` writes it: where pins go, and then each place with its pins before and
//! after, its capacity and its price.
//!
//! Promised: `tables_text` gives the text of `specs/Tables.antt` for its plan, byte for byte. Start there.
#![tactic(auto)]

mod tables;

pub use tables::tables_text;

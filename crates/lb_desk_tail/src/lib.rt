//! The end of a log, in bounded memory: a journal that keeps its newest entries and numbers all of them.
//!
//! Promised: whatever log a `Tail` keeps the end of, `Tail::push` makes it keep the end of that log with one entry more,
//! and hands out the entry that leaves. All memory is taken by `Tail::new`, so that no later call can fail. Start at
//! `Tail`, whose words are in `specs/Tail.antt`.
#![tactic(auto)]

mod tail;

pub use tail::Tail;

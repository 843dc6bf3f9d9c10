//! What plans, sheets and the table of pins speak of alike: kinds of pins, groups of pins of one kind, and rows that
//! send pins of one kind to a new place.
//!
//! Promised: the order of kinds and of rows is the one of the definitions in `specs/Kinds.antt`, a strict order in which
//! any two differ in one way. Start there.
#![tactic(auto)]

mod kind;

pub use kind::{Group, PinKind, Row};

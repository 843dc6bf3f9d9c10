//! The moves of a plan, shared out among pins that are counted by the servers that they want.
//!
//! A plan says how many pins of each place, permitted servers and cost go where. Pins that want other servers may have the same
//! permitted ones, so a table that counts its pins by what they want has several counts for one kind of the plan.
//!
//! Promised: `moves_of` shares the plan's pins out so that each count is used up and each kind goes where the plan sends it. A pass
//! that asks `Moving` once for each pin, in any order, puts the pins where the plan sends them. Start at `moves_of`; the words are in
//! `specs/Moves.antt`, and those of a pass in `specs/Passes.antt`.
#![tactic(auto)]

mod a_move;
mod handed;
mod hints;
mod passes;
mod sharing;

pub use a_move::Move;
pub use handed::{Moving, nothing_is_left};
pub use passes::whole_passes_agree;
pub use sharing::moves_of;

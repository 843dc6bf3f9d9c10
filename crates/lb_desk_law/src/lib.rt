//! What the machine of `lb_desk_model` is worth: the laws of whole histories, whatever caller asked for their events, in whatever
//! order.
//!
//! Promised, in every history: an install answers Stale, and changes nothing, exactly where the view has changed since
//! the plan's version. An installed plan keeps each pin once, and is best for the view that it met. Each call does
//! nothing: its contract is a law. Start at `specs/Headline.antt`.
#![tactic(auto)]

mod laws;

pub use laws::{
    a_pin_that_was_set_is_kept, accepted_plans_are_never_bad, installs_are_stale_or_best,
    parts_of_a_history, pins_that_are_set_make_the_table, sets_and_clears_are_one,
    views_are_lawful, worked_picks,
};

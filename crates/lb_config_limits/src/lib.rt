//! What a line of a configuration may not do because of the lines before it: declare a name a second time, go past a count, or
//! have a second `stick on` in its section.
//!
//! Promised: `Declarations::take` is the function on the lines' words that `specs/Limits` defines. These faults are reported at a
//! line's first or second word, so they go before what `lb_config_lines` finds after it. Start at `Declarations`. Private to
//! `lb_config_sections`; a crate of its own, since it is proved beside `lb_config_lines`.
#![tactic(auto)]

mod declarations;
mod fault;
mod kind;
mod name_set;
mod ordered_name;

pub use declarations::{Declarations, MAX_BACKENDS, MAX_LINES};
pub use fault::{LimitError, LimitFault};

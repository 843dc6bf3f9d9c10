//! What a section's lines make of requests: ACLs by their names, conditions with the lines of their ACLs, and rules with their
//! backends and servers.
//!
//! Promised: `read_rules` gives exactly what `specs/Rules` defines, and `chosen` takes the first rule `use_backend` that applies.
//! Rules that name one ACL share its lines. Start at `read_rules`. Private to `lb_config`.
#![tactic(auto)]

mod backend_choice;
mod conds;
mod named_acls;
mod resolving;
mod section_parts;
mod section_rules;

pub use backend_choice::{BackendChoice, chosen};
pub use resolving::place_of;
pub use section_rules::{BackRules, FrontRules, read_rules};

//! A backend of the configuration as it runs, for tests: one crate that has a running desk and all that its callers name. The program
//! opens its desks by `lb_desk_backend` and `Desk::open` of `lb_desk_step`.
//!
//! Promised: `open` gives a desk at the opening of the backend that the configuration is read as, with the journal that it asks
//! for. `run_world` gives the replies that this backend gives to a list of events. What a desk does from there on is promised by
//! the calls of `Desk`. Start at `open`, whose words are in `specs/Opened.antt`.
//!
//! The rest is passed on: the desk of `lb_desk_step` with its journal and its refusals, the backend of `lb_desk_backend`, the events
//! and replies of `lb_desk_model`, and what `lb_types` and `pin_set` have of a backend and of its pins.
#![tactic(auto)]

mod opened;

pub use lb_desk_backend::{backend_of, configured_backends_open_as_one};
pub use lb_desk_model::{
    Backend, BackendServer, Entry, Event, Refusal, Reply, Request, RuleList, ServedAs, Shared,
    Stand,
};
pub use lb_desk_ports::Refused;
pub use lb_desk_step::{Desk, Taken};
pub use lb_desk_tail::Tail;
pub use lb_types::{Balance, TableSettings};
pub use opened::{open, run_world};
pub use pin_set::TablePin;

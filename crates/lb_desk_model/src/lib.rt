//! The machine that one backend is: its events, its replies, and what each event does.
//!
//! Of what runs, copies alone are promised: each equals what it is a copy of. The definitions in `specs/` say which reply
//! goes with which event and what state follows. `lb_desk_law` proves what they are worth, and the desk of `lb_desk_step`
//! meets them. Start at `specs/Steps.antt`.
#![tactic(auto)]

mod backend;
mod entry;
mod event;
mod reply;
mod rule_list;
mod shared;
mod stand;

pub use backend::{Backend, BackendServer};
pub use entry::Entry;
pub use event::{Event, Request, SetPin};
pub use reply::{PinnedAs, Refusal, Reply, ServedAs};
pub use rule_list::RuleList;
pub use shared::Shared;
pub use stand::Stand;

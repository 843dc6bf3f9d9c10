//! A worker of the relay, without its thread: it takes the connections that listeners accepted, and serves each.
//!
//! Promised: `serve_arrival` serves one request over the connection by what the configuration says at its frontend. What the lobby read
//! comes first, and then what the connection gives. `end_served` ends its own direction of it; the slot was given back before. `work`
//! does so with one connection after another until no more can come, and gives its ports back, at which nothing else was done. Between
//! requests it looks at those that were served, until their clients have closed them. So clients get all that was sent to them, and
//! hold up no worker. What passes over the sockets no clause says.
//!
//! A worker whose request waits for a server, in a queue or for its client isn't at work, so others may be called in its place. All
//! workers share a `Roster`, in which each has a `Post`. A `Watch` looks at it and says how many have to be called; when that is no
//! clause says. Start at `work`, whose words are in `specs/Services.antt`, and at `Leavers` and `Watch`.
#![tactic(auto)]

mod leavers;
mod post;
mod relay;
mod roster;
mod serving;
mod waiting;
mod watch;
mod working;

pub use leavers::Leavers;
pub use post::Post;
pub use relay::{Relay, RelayWorker};
pub use roster::{MOST_ON_CALL, Roster};
pub use serving::{ClientWire, Served, end_served, over_wire, serve_arrival};
pub use watch::Watch;
pub use working::work;

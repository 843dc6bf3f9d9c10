//! HAProxy's answers over its admin socket, read: what a stick table holds, and which servers a backend has.
//!
//! Promised: `read_table` gives exactly the entries of an answer to `show table`, as `specs/Tables.antt` says, and `read_servers` exactly the
//! servers of an answer to `show servers state`, as `specs/Servers.antt` says. Where an answer isn't of the form, each gives the number of the
//! first line that isn't. Start at `read_table`.
#![tactic(auto)]

mod bytes;
mod cuts;
mod entry;
mod fault;
mod fields;
mod key;
mod row;
mod servers;
mod table;

pub use bytes::Bytes;
pub use entry::Entry;
pub use fault::ReadError;
pub use row::Server;
pub use servers::read_servers;
pub use table::read_table;

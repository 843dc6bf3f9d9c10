//! Probes of servers over the system's sockets, many at once.
//!
//! Promised: a `SocketProbes` is a `Probes`: each probe connects, and where the server's rule has a request, sends it and judges the
//! answer by `check_workers_probe::Probing`. No call waits for one server alone. One limit holds for a probe as a whole; that it
//! does is only tested. Start at `SocketProbes`.
#![tactic(auto)]

mod probes;
mod talk;
mod talks;
mod target;

pub use probes::SocketProbes;
pub use target::ProbeTarget;

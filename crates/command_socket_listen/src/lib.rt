//! Where operators reach the balancer: a listener on an address or on a path of the file system, and its connections.
//!
//! Promised: nothing by a clause, since no clause says what the system does. Tested: which users may connect to a path; that a socket
//! left by a dead program is replaced; that one which is listened on and files of other kinds are left alone; that a stop is seen,
//! and the path is free again at the end; and that a line which comes byte by byte has 5 s in all, and an answer that is read slowly 60 s,
//! or 5 s once `is_over` is set. Start at `CommandListener`.
#![tactic(auto)]

mod line;
mod listener;
mod path;
mod stream;

pub use line::LineStream;
pub use listener::CommandListener;
pub use stream::CommandStream;

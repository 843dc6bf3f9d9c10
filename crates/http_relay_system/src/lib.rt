//! The relay's dialer and clock over the system's own.
//!
//! Promised: a `SocketDialer` is a `Dialer` whose connections are wires over sockets, and a `SystemClock` a `Clock`. Both count and
//! record what these traits' contracts say, and keep no records. What a socket does and what time it is no clause says, nor what
//! becomes of a request whose client leaves (`Attended`). Start at `SocketDialer`, and for how a connection waits at `ServerStream`.
#![tactic(auto)]

mod attended;
mod clock;
mod connection;
mod dialer;
mod server_wire;

pub use attended::Attended;
pub use clock::SystemClock;
pub use connection::ServerStream;
pub use dialer::SocketDialer;
pub use server_wire::ServerWire;

use http_relay_serve::{Cause, answer};
use http_relay_wire::SocketWire;
use std::io::{Read, Write};

/// Answers a client that there is no memory for its head, and closes its connection. It doesn't wait for the client: nothing was
/// written to the stream before, so its buffer has room for the answer.
pub(crate) fn refuse<S: Read + Write + Drop>(stream: S) {
    let _ = answer(&mut SocketWire::new(stream), Cause::HeadMemory);
}

/// Answers a client that it took too long to send its head, and closes its connection. It doesn't wait for the client either.
pub(crate) fn time_out<S: Read + Write + Drop>(stream: S) {
    let _ = answer(&mut SocketWire::new(stream), Cause::HeadTimedOut);
}

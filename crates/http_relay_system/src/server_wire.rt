ghost use Rattle.std.specs.Prelude.{◌≡◌, ◌^◌, None, false};
ghost use Rattle.http_relay_wire.specs.Faults.{no_faults};

use crate::ServerStream;
use http_relay_wire::{SocketWire, Wire, WireFault};

/// A wire over a connection to a server, which knows whether a read has reported that the server ended.
#[derive(Drop)]
pub struct ServerWire<'a> {
    wire: SocketWire<ServerStream<'a>>,
    has_ended: bool,
}

impl<'a> ServerWire<'a> {
    /// A wire over the connection, of which nothing was read or written yet.
    pub(crate) fn new(stream: ServerStream<'a>) -> Self
        ensures reading { ⟦<ServerWire<'a> as Wire>⟧.reading result ≡ record { unread = None; left = 2 ^ 62; ended = false } }
        ensures faults { ⟦<ServerWire<'a> as Wire>⟧.faults result ≡ no_faults }
    {
        ServerWire {
            wire: SocketWire::new(stream),
            has_ended: false,
        }
    }

    /// Whether a read has reported that the server ended.
    pub(crate) fn has_ended(&self) -> bool {
        self.has_ended
    }
}

impl<'a> Wire for ServerWire<'a> {
    ghost reading = { λ server. ⟦<SocketWire<ServerStream<'a>> as Wire>⟧.reading server.wire };

    ghost written = { λ server. ⟦<SocketWire<ServerStream<'a>> as Wire>⟧.written server.wire };

    ghost faults = { λ server. ⟦<SocketWire<ServerStream<'a>> as Wire>⟧.faults server.wire };

    fn read(&mut self, buffer: &mut [u8]) -> Result<usize, WireFault> {
        let answer = self.wire.read(buffer);
        if answer == Ok(0) && !buffer.is_empty() {
            self.has_ended = true;
        }
        answer
    }

    fn write(&mut self, bytes: &[u8]) -> Result<usize, WireFault> {
        self.wire.write(bytes)
    }
}

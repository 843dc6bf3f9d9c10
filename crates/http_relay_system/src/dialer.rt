ghost use Rattle.std.specs.Prelude.{◌≡◌, ◌≤◌, length, IfOk, None};

use crate::{Attended, ServerStream, ServerWire};
use http_relay_dial::{Dialer, Endpoint, Limits};
use http_relay_wire::WireFault;
use std::io;
use std::io::ErrorKind;
use std::net::{Net, SocketAddr, SocketAddrV4};
use std::os::fd::RawFd;
use std::sync::Wait;

/// Connects to servers by sockets. A connection sends at once what it is given, and waits as long as its limits let it. It is closed
/// where it is given back. One whose server has ended, to which it is as good as closed, is closed at `close_last` instead, or where
/// the next one is given back. So a caller that owes a client the end of its answer sends it before that.
///
/// One that attends to a client dials nobody if that had left at the last pause, and its connections end their waits if it leaves.
#[derive(Default, Drop)]
pub struct SocketDialer<'a> {
    attended: Option<&'a Attended>,
    failures: u64,
    /// The connection that was given back last, where its server has ended and it isn't closed yet.
    last: Option<ServerWire<'a>>,
}

impl<'a> SocketDialer<'a> {
    /// A dialer that hasn't failed yet, and attends to nobody.
    pub fn new() -> Self
        ensures { result.failures ≡ 0 }
    {
        SocketDialer {
            attended: None,
            failures: 0,
            last: None,
        }
    }

    /// A dialer that hasn't failed yet. It attends to these clients.
    pub fn beside(clients: Option<&'a Attended>) -> Self
        ensures { result.failures ≡ 0 }
    {
        SocketDialer {
            attended: clients,
            failures: 0,
            last: None,
        }
    }

    /// Begins the request of the client of this connection, which has to stay open until `end`. The client may hold up the balancer's end
    /// for so many milliseconds; without a number, and at 0, for ever.
    pub fn begin(&self, client: RawFd, limit: Option<u32>) {
        if let Some(clients) = self.attended {
            clients.begin(client, limit);
        }
    }

    /// Ends the request.
    pub fn end<W: Wait>(&self, rt: &W) {
        if let Some(clients) = self.attended {
            clients.end(rt);
        }
    }

    /// Connects for the client. One that has left is connected to nobody.
    fn connect<R: Net>(
        &self,
        rt: &R,
        endpoint: Endpoint,
        limits: Limits,
        first: &[u8],
    ) -> io::Result<(ServerStream<'a>, usize)>
        ensures { IfOk result (λ connected. connected.1 ≤ length first.now) }
    {
        if has_left(self.attended) {
            return Err(ErrorKind::ConnectionAborted.into());
        }
        let address = SocketAddr::V4(SocketAddrV4::new(endpoint.address, endpoint.port));
        let connected = ServerStream::connect(rt, address, limits, self.attended, first)?;
        if let Some(client) = self.attended {
            client.note_server(limits.transfer);
        }
        Ok(connected)
    }

    /// Closes the connection that was given back last, if it isn't closed yet. That costs two system calls.
    pub fn close_last(&mut self)
        ensures { self.new.failures ≡ self.old.failures }
    {
        self.last = None;
    }
}

impl<'a, R: Net> Dialer<R> for SocketDialer<'a> {
    type Connection = ServerWire<'a>;

    ghost dials = { λ dialer. None };

    ghost talks = { λ dialer. None };

    ghost failures = { λ dialer. dialer.failures };

    fn dial(
        &mut self,
        rt: &R,
        endpoint: Endpoint,
        limits: Limits,
        first: &[u8],
    ) -> Result<(ServerWire<'a>, usize), WireFault> {
        match self.connect(rt, endpoint, limits, first) {
            Ok((stream, taken)) => Ok((ServerWire::new(stream), taken)),
            Err(error) => {
                self.failures = self.failures.saturating_add(1);
                Err(fault_of(&error))
            }
        }
    }

    fn hang_up(&mut self, _rt: &R, connection: ServerWire<'a>) {
        self.last = connection.has_ended().then_some(connection);
    }
}

/// Whether the client had left at the last look.
fn has_left(client: Option<&Attended>) -> bool {
    match client {
        Some(client) => client.has_left(),
        None => false,
    }
}

fn fault_of(error: &io::Error) -> WireFault {
    match error.kind() {
        ErrorKind::WouldBlock | ErrorKind::TimedOut => WireFault::Timeout,
        _ => WireFault::Broken,
    }
}

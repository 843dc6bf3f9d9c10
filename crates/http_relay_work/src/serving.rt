ghost use Rattle.std.specs.Prelude.{◌≡◌, ◌≤◌, ◌↔◌, [], length, IfSome, IfNone, IsNone, None};
ghost use Rattle.std.specs.Io.KnownBytes.{prepend_known};
ghost use Rattle.http_relay_serve.specs.Serves.{port_seen};
ghost use Rattle.http_relay_work.specs.Services.{ServesAtFrontend};
ghost use Rattle.lb_routes.specs.RequestsOf.{routes_at};

use crate::{Leavers, Relay, RelayWorker};
use http_relay_head::HEAD_ROOM;
use http_relay_lobby::Arrival;
use http_relay_serve::{Cause, Client, DropCause, Outcome, serve_one};
use http_relay_socket::{EagerStream, FrontedWire};
use http_relay_wire::{SocketWire, Wire};
use lb_desk_ports::{Gate, Port};
use lb_routes::ConfigRoutes;
use std::alloc::Global;
use std::io::{Read, Write};
use std::net::{Net, OpenStream};
use std::os::fd::AsRawFd;
use std::sync::Wait;
use std::time::Clock;

/// The wire over a client's stream, which came set not to block.
pub type ClientWire<S> = SocketWire<EagerStream<S>>;

/// A request that was served.
#[derive(Debug, Drop)]
pub struct Served<W> {
    pub outcome: Outcome,
    /// The client's connection, which is still open.
    pub client: W,
}

/// The same connection over a wire. Its stream came set not to block, and keeps the limits that it came with.
pub fn over_wire<S: Read + Write + OpenStream + Drop>(arrival: Arrival<S>) -> Arrival<ClientWire<S>>
    ensures source { result.source ≡ arrival.source }
    ensures frontend { result.frontend ≡ arrival.frontend }
    ensures head { result.head ≡ arrival.head }
    ensures failed { result.failed ≡ arrival.failed }
{
    Arrival {
        stream: SocketWire::new(EagerStream::new(arrival.stream)),
        source: arrival.source,
        frontend: arrival.frontend,
        head: arrival.head,
        failed: arrival.failed,
    }
}

/// Serves the one request of a client that came to a frontend, with one port for each backend. None where the configuration has no such
/// frontend: the connection is closed.
///
/// The bytes that were read of the connection come first, and then what it gives. After the dial no memory is asked for. If the client
/// resets its connection while a server is waited for, the wait ends.
pub fn serve_arrival<R, W, P, G>(
    rt: &R,
    alloc: Global,
    relay: Relay<'_>,
    worker: &mut RelayWorker<'_, G>,
    arrival: Arrival<W>,
    ports: &mut [P],
    room: &mut [u8; HEAD_ROOM],
) -> Option<Served<W>>
where
    R: Net + Clock + Wait,
    W: Wire + AsRawFd + Drop,
    P: Port<R>,
    G: Gate<R>,
    requires room { length relay.config.now.backends ≤ length ports.old }
    requires unwritten { IfSome (W.written arrival.stream) (λ bytes. bytes ≡ []) }
    ensures served { IfSome result (λ served. ServesAtFrontend (port_seen P.entries P.refusals) P.server_of relay.entry.config.now
        (prepend_known arrival.head.items (W.reading arrival.stream).unread) ports.old ports.new
        (record { frontend = arrival.frontend; source = arrival.source; outcome = served.outcome })) }
    ensures nowhere { IsNone result ↔ (routes_at relay.entry.config.now arrival.frontend ≡ None) }
    ensures unserved { IfNone result (ports.new ≡ ports.old) }
{
    let Arrival {
        stream,
        source,
        frontend,
        head,
        failed,
    } = arrival;
    let routes = ConfigRoutes::at(relay.config, frontend)?;
    worker
        .dialer
        .begin(stream.as_raw_fd(), routes.client_limit());
    let mut client = Client {
        wire: FrontedWire::new(stream, &head, failed),
        source,
    };
    let outcome = serve_one(rt, alloc, worker, &routes, ports, &mut client, room);
    worker.dialer.end(rt);
    Some(Served {
        outcome,
        client: client.wire.into_wire(),
    })
}

/// Ends a client's connection, with its server's after it. If the client doesn't close by itself it is waited for among `leavers`. One
/// that broke off before its head was read got nothing that could be lost, so it is closed at once. So is one whose head took too long:
/// a silent client left nothing unread, by which an answer would be lost, and to wait for its end would give it a worker for a second.
pub fn end_served<R, S, G>(
    rt: &R,
    worker: &mut RelayWorker<'_, G>,
    served: Served<ClientWire<S>>,
    leavers: &mut Leavers<S>,
)
where
    R: Clock,
    S: Read + Write + OpenStream + Drop,
{
    match served.outcome {
        Outcome::Dropped(DropCause::HeadBroken) | Outcome::Answered(Cause::HeadTimedOut) => {}
        _ => leavers.add(rt, served.client.into_stream()),
    }
    // The client's end goes first: where the client ends before, its last packets cost more here.
    worker.dialer.close_last();
}

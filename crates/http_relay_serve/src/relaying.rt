ghost use Rattle.std.specs.Prelude.{◌<◌};
ghost use Rattle.http_relay_dial.specs.Dials.{talk_of};
ghost use Rattle.http_relay_serve.specs.Serves.{ServesAt, port_seen, clock_seen, dialer_seen, scene};

use crate::placing::prepare;
use crate::{BackendFault, Routing, Worker};
use http_relay_dial::Dialer;
use http_relay_head::ReadHead;
use http_relay_talk::visit;
use http_relay_wire::Wire;
use lb_desk_ports::{Clock, Port};
use std::alloc::Global;

/// Relays a request whose head was read: asks its backend for a server, and visits that. All memory is asked for before the dial.
pub(crate) fn serve_at<R, T: Routing, P: Port<R>, K: Clock<R>, G, D: Dialer<R>, C: Wire>(
    rt: &R,
    alloc: Global,
    worker: &mut Worker<K, G, D>,
    routing: &T,
    backend: usize,
    port: &mut P,
    read: &ReadHead<'_>,
    client: &mut C,
) -> Result<u64, BackendFault>
    requires { backend < T.backends routing.now }
    ensures { ServesAt P.server_of (T.routes routing.now) backend read.now
        (port_seen P.entries P.refusals port.old) (port_seen P.entries P.refusals port.new)
        (scene (clock_seen K.told K.pauses worker.old.clock) (dialer_seen D.dials D.talks D.failures worker.old.dialer)
        (talk_of C.written C.reading C.faults client.old))
        (scene (clock_seen K.told K.pauses worker.new.clock) (dialer_seen D.dials D.talks D.failures worker.new.dialer)
        (talk_of C.written C.reading C.faults client.new))
        result }
{
    let prepared = match prepare(rt, alloc, &mut worker.clock, routing, backend, port, read) {
        Ok(prepared) => prepared,
        Err(fault) => return Err(fault),
    };
    let outgoing = prepared.outgoing(read.rest());
    let answer = visit(
        rt,
        port,
        &mut worker.clock,
        &mut worker.dialer,
        &prepared.target,
        &outgoing,
        client,
    );
    match answer {
        Ok(count) => Ok(count),
        Err(fault) => Err(BackendFault::Visit(fault)),
    }
}

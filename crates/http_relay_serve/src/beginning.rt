ghost use Rattle.std.specs.Prelude.{◌≡◌, ◌<◌, ◌≤◌, length};
ghost use Rattle.http_relay_dial.specs.Dials.{talk_of};
ghost use Rattle.http_relay_serve.specs.Parts.{BeginsAt, Starts, at_backend, visited};
ghost use Rattle.http_relay_serve.specs.Serves.{port_seen, clock_seen, dialer_seen, scene};
ghost use Rattle.http_relay_serve.specs.Steps.{Begins};

use crate::finding::{Found, find};
use crate::placing::prepare;
use crate::serving::end;
use crate::{BackendFault, Client, Outcome, Routing, ServeFault, Stage, Step, Underway, Worker};
use http_relay_dial::Dialer;
use http_relay_head::{HEAD_ROOM, ReadHead};
use http_relay_talk::{Step as Visit, Underway as Visiting, VisitFault, begin_visit};
use http_relay_wire::Wire;
use lb_desk_ports::{Clock, Gate, Port};
use std::alloc::Global;

/// Begins to serve one request of the client, as `serve_one` does, up to where it waits for a connection to a server that is full, or
/// for the first byte of the response. It waits for neither. While it reads the head, dials and sends it holds its thread. Memory is
/// asked for as by `serve_one`. A request that waits needs the room no more.
pub fn begin<'t, R, T: Routing, P: Port<R>, K: Clock<R>, G: Gate<R>, D: Dialer<R>, C: Wire>(
    rt: &R,
    alloc: Global,
    worker: &mut Worker<K, G, D>,
    routing: &'t T,
    ports: &mut [P],
    client: Client<C>,
    room: &mut [u8; HEAD_ROOM],
) -> Step<'t, P::Slot, D::Connection, C>
    requires { T.backends routing.now ≤ length ports.old }
    ensures begins { Begins (port_seen P.entries P.refusals) P.server_of
        (talk_of D.Connection.written D.Connection.reading D.Connection.faults) (talk_of C.written C.reading C.faults)
        (T.routes routing.now) client.source ports.old ports.new
        (scene (clock_seen K.told K.pauses worker.old.clock) (dialer_seen D.dials D.talks D.failures worker.old.dialer)
        (talk_of C.written C.reading C.faults client.wire))
        (clock_seen K.told K.pauses worker.new.clock) (dialer_seen D.dials D.talks D.failures worker.new.dialer)
        result }
    ensures pauses { K.pauses worker.new.clock ≡ K.pauses worker.old.clock }
{
    let mut client = client;
    let started = start(rt, alloc, worker, routing, ports, &mut client, room);
    match started {
        Started::Waits(backend, stage) => Step::Waits(Underway {
            client,
            backend,
            stage,
        }),
        Started::Ended(answer) => {
            let outcome = end(&mut client.wire, Outcome::of(answer));
            Step::Done(client, outcome)
        }
    }
}

/// How far a request has come whose service was begun.
enum Started<'t, S, W> {
    /// It waits at the backend of this number.
    Waits(usize, Stage<'t, S, W>),
    /// No more is done for it but an answer of the relay's own.
    Ended(Result<u64, ServeFault>),
}

/// Reads the head, and begins with the request at its backend.
fn start<'t, R, T: Routing, P: Port<R>, K: Clock<R>, G: Gate<R>, D: Dialer<R>, C: Wire>(
    rt: &R,
    alloc: Global,
    worker: &mut Worker<K, G, D>,
    routing: &'t T,
    ports: &mut [P],
    client: &mut Client<C>,
    room: &mut [u8; HEAD_ROOM],
) -> Started<'t, P::Slot, D::Connection>
    requires { T.backends routing.now ≤ length ports.old }
    ensures starts { Starts (port_seen P.entries P.refusals) P.server_of
        (talk_of D.Connection.written D.Connection.reading D.Connection.faults)
        (T.routes routing.now) client.old.source ports.old ports.new
        (scene (clock_seen K.told K.pauses worker.old.clock) (dialer_seen D.dials D.talks D.failures worker.old.dialer)
        (talk_of C.written C.reading C.faults client.old.wire))
        (scene (clock_seen K.told K.pauses worker.new.clock) (dialer_seen D.dials D.talks D.failures worker.new.dialer)
        (talk_of C.written C.reading C.faults client.new.wire))
        result }
    ensures pauses { K.pauses worker.new.clock ≡ K.pauses worker.old.clock }
{
    let found = find(
        rt,
        alloc,
        &mut worker.gate,
        routing,
        client.source,
        &mut client.wire,
        room,
    );
    let Found { read, backend } = match found {
        Ok(found) => found,
        Err(fault) => return Started::Ended(Err(fault)),
    };
    let begun = begin_at(
        rt,
        alloc,
        worker,
        routing,
        backend,
        &mut ports[backend],
        &read,
        &mut client.wire,
    );
    match begun {
        Begun::Waits(stage) => Started::Waits(backend, stage),
        Begun::Ended(answer) => Started::Ended(at_backend(answer)),
    }
}

/// How far a request has come at its backend.
enum Begun<'t, S, W> {
    /// It waits.
    Waits(Stage<'t, S, W>),
    /// It was relayed, with so many bytes of a response, or not.
    Ended(Result<u64, BackendFault>),
}

/// Begins with a request whose head was read: asks its backend for a server, and begins the visit of that.
fn begin_at<'t, R, T: Routing, P: Port<R>, K: Clock<R>, G, D: Dialer<R>, C: Wire>(
    rt: &R,
    alloc: Global,
    worker: &mut Worker<K, G, D>,
    routing: &'t T,
    backend: usize,
    port: &mut P,
    read: &ReadHead<'_>,
    client: &mut C,
) -> Begun<'t, P::Slot, D::Connection>
    requires { backend < T.backends routing.now }
    ensures begins { BeginsAt P.server_of (talk_of D.Connection.written D.Connection.reading D.Connection.faults)
        (T.routes routing.now) backend read.now
        (port_seen P.entries P.refusals port.old) (port_seen P.entries P.refusals port.new)
        (scene (clock_seen K.told K.pauses worker.old.clock) (dialer_seen D.dials D.talks D.failures worker.old.dialer)
        (talk_of C.written C.reading C.faults client.old))
        (scene (clock_seen K.told K.pauses worker.new.clock) (dialer_seen D.dials D.talks D.failures worker.new.dialer)
        (talk_of C.written C.reading C.faults client.new))
        result }
    ensures pauses { K.pauses worker.new.clock ≡ K.pauses worker.old.clock }
{
    let prepared = match prepare(rt, alloc, &mut worker.clock, routing, backend, port, read) {
        Ok(prepared) => prepared,
        Err(fault) => return Begun::Ended(Err(fault)),
    };
    let outgoing = prepared.outgoing(read.rest());
    let visit = begin_visit(
        rt,
        port,
        &mut worker.clock,
        &mut worker.dialer,
        &prepared.target,
        &outgoing,
        client,
    );
    match visit {
        Visit::Waits(Visiting::Copying(held)) => Begun::Waits(Stage::Copying(held)),
        Visit::Waits(Visiting::Queueing(queueing)) => {
            Begun::Waits(Stage::Queueing(prepared.queue(read.rest(), queueing)))
        }
        Visit::Done(answer) => Begun::Ended(visited(answer)),
    }
}

/// The answer of a request at its backend, by that of its visit.
fn visited(answer: Result<u64, VisitFault>) -> Result<u64, BackendFault>
    ensures { result ≡ visited answer }
{
    match answer {
        Ok(count) => Ok(count),
        Err(fault) => Err(BackendFault::Visit(fault)),
    }
}

/// The answer of a request, by that at its backend.
fn at_backend(answer: Result<u64, BackendFault>) -> Result<u64, ServeFault>
    ensures { result ≡ at_backend answer }
{
    match answer {
        Ok(count) => Ok(count),
        Err(fault) => Err(ServeFault::Backend(fault)),
    }
}

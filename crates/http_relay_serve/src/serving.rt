ghost use Rattle.std.specs.Prelude.{◌≤◌, length};
ghost use Rattle.http_relay_dial.specs.Dials.{talk_of};
ghost use Rattle.http_relay_serve.specs.Outcomes.{Ends, GotAnswer};
ghost use Rattle.http_relay_serve.specs.Serves.{Relays, Serves, port_seen, clock_seen, dialer_seen, scene};

use crate::answering::answer;
use crate::finding::{Found, find};
use crate::relaying::serve_at;
use crate::{Client, DropCause, Outcome, Routing, ServeFault, Worker};
use http_relay_dial::Dialer;
use http_relay_head::HEAD_ROOM;
use http_relay_wire::Wire;
use lb_desk_ports::{Clock, Gate, Port};
use std::alloc::Global;

/// Serves one request of the client, with one port for each backend of the configuration, by its number. The head is read into
/// `room`. Memory is allocated three times before the dial: for the list of the fields, for what the configuration makes of the head, and
/// for the 17,000 bytes of the head that the server gets. After the dial it is allocated only to learn from an answer: for a key of more
/// than 32 bytes, and for a head that comes in several pieces.
pub fn serve_one<R, T: Routing, P: Port<R>, K: Clock<R>, G: Gate<R>, D: Dialer<R>, C: Wire>(
    rt: &R,
    alloc: Global,
    worker: &mut Worker<K, G, D>,
    routing: &T,
    ports: &mut [P],
    client: &mut Client<C>,
    room: &mut [u8; HEAD_ROOM],
) -> Outcome
    requires { T.backends routing.now ≤ length ports.old }
    ensures serves { Serves (port_seen P.entries P.refusals) P.server_of (T.routes routing.now) client.old.source ports.old ports.new
        (scene (clock_seen K.told K.pauses worker.old.clock) (dialer_seen D.dials D.talks D.failures worker.old.dialer)
        (talk_of C.written C.reading C.faults client.old.wire))
        (scene (clock_seen K.told K.pauses worker.new.clock) (dialer_seen D.dials D.talks D.failures worker.new.dialer)
        (talk_of C.written C.reading C.faults client.new.wire))
        result }
    ensures answer { GotAnswer result (C.written client.old.wire) (C.written client.new.wire) }
{
    let relayed = relay(rt, alloc, worker, routing, ports, client, room);
    end(&mut client.wire, Outcome::of(relayed))
}

/// Reads the head, and relays the request at its backend.
fn relay<R, T: Routing, P: Port<R>, K: Clock<R>, G: Gate<R>, D: Dialer<R>, C: Wire>(
    rt: &R,
    alloc: Global,
    worker: &mut Worker<K, G, D>,
    routing: &T,
    ports: &mut [P],
    client: &mut Client<C>,
    room: &mut [u8; HEAD_ROOM],
) -> Result<u64, ServeFault>
    requires { T.backends routing.now ≤ length ports.old }
    ensures { Relays (port_seen P.entries P.refusals) P.server_of (T.routes routing.now) client.old.source ports.old ports.new
        (scene (clock_seen K.told K.pauses worker.old.clock) (dialer_seen D.dials D.talks D.failures worker.old.dialer)
        (talk_of C.written C.reading C.faults client.old.wire))
        (scene (clock_seen K.told K.pauses worker.new.clock) (dialer_seen D.dials D.talks D.failures worker.new.dialer)
        (talk_of C.written C.reading C.faults client.new.wire))
        result }
{
    let found = find(
        rt,
        alloc,
        &mut worker.gate,
        routing,
        client.source,
        &mut client.wire,
        room,
    );
    let Found { read, backend } = match found {
        Ok(found) => found,
        Err(fault) => return Err(fault),
    };
    match serve_at(
        rt,
        alloc,
        worker,
        routing,
        backend,
        &mut ports[backend],
        &read,
        &mut client.wire,
    ) {
        Ok(count) => Ok(count),
        Err(fault) => Err(ServeFault::Backend(fault)),
    }
}

/// Gives the client the relay's own answer, where that is due, and says what became of the request.
pub(crate) fn end<C: Wire>(client: &mut C, due: Outcome) -> Outcome
    ensures { Ends due (talk_of C.written C.reading C.faults client.old) (talk_of C.written C.reading C.faults client.new) result }
{
    let Outcome::Answered(cause) = due else {
        return due;
    };
    match answer(client, cause) {
        Ok(()) => due,
        Err(fault) => Outcome::Dropped(DropCause::AnswerNotTaken(cause, fault)),
    }
}

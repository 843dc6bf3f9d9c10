ghost use Rattle.std.specs.Prelude.{◌≡◌, ◌<◌, ◌≤◌, List, length};
ghost use Rattle.http_relay_dial.specs.Dials.{talk_of};
ghost use Rattle.http_relay_inflight.specs.Turns.{Admits, Comes, Keeps, Turn, worker_seen};
ghost use Rattle.http_relay_serve.specs.Serves.{port_seen, clock_seen, dialer_seen};
ghost use Rattle.keyed_values.specs.Keys.{held};

use crate::{InFlight, Progress};
use http_relay_dial::Dialer;
use http_relay_head::HEAD_ROOM;
use http_relay_serve::{Client, Routing, Step, Worker, begin};
use http_relay_wire::Wire;
use lb_desk_ports::{Clock, Gate, Port};
use std::alloc::Global;

/// Begins a request of the client, as `begin` of `http_relay_serve` does, and keeps it if it waits. It allocates no more than that.
pub fn admit<'t, R, T: Routing, P: Port<R>, K: Clock<R>, G: Gate<R>, D: Dialer<R>, C: Wire>(
    rt: &R,
    alloc: Global,
    worker: &mut Worker<K, G, D>,
    routing: &'t T,
    ports: &mut [P],
    client: Client<C>,
    room: &mut [u8; HEAD_ROOM],
    requests: &mut InFlight<'t, T, P::Slot, D::Connection, C>,
) -> Progress<C>
    requires backends { T.backends routing.now ≤ length ports.old }
    requires ports { length ports.old ≡ requests.old.backends }
    requires room { held requests.old.kept < requests.old.kept.most }
    // Whatever was done before: with those in flight as they are kept, this is one turn more.
    ensures admits { (turns : List (Turn T)) → Keeps (port_seen P.entries P.refusals) P.server_of
        (talk_of D.Connection.written D.Connection.reading D.Connection.faults) (talk_of C.written C.reading C.faults) T.routes turns requests.old
        → Admits (port_seen P.entries P.refusals) P.server_of
        (talk_of D.Connection.written D.Connection.reading D.Connection.faults) (talk_of C.written C.reading C.faults) T.routes
        routing.now client.source (talk_of C.written C.reading C.faults client.wire) turns
        (worker_seen ports.old (clock_seen K.told K.pauses worker.old.clock) (dialer_seen D.dials D.talks D.failures worker.old.dialer))
        (worker_seen ports.new (clock_seen K.told K.pauses worker.new.clock) (dialer_seen D.dials D.talks D.failures worker.new.dialer))
        requests.new result }
    ensures comes { Comes requests.old requests.new result }
    ensures most { requests.new.kept.most ≡ requests.old.kept.most }
    ensures kept_backends { requests.new.backends ≡ requests.old.backends }
    ensures pauses { K.pauses worker.new.clock ≡ K.pauses worker.old.clock }
{
    match begin(rt, alloc, worker, routing, ports, client, room) {
        Step::Waits(underway) => Progress::Waits(requests.insert(underway)),
        Step::Done(client, outcome) => Progress::Over(client, outcome),
    }
}

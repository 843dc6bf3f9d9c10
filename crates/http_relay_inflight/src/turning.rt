ghost use Rattle.std.specs.Prelude.{◌≡◌, ◌<◌, List, length};
ghost use Rattle.http_relay_dial.specs.Dials.{talk_of};
ghost use Rattle.http_relay_inflight.specs.Turns.{Keeps, Steps, StaysOrLeaves, Turn, due_to, worker_seen};
ghost use Rattle.http_relay_serve.specs.Serves.{port_seen, clock_seen, dialer_seen};
ghost use Rattle.keyed_values.specs.Keys.{HasKey, at};

use crate::{InFlight, Progress};
use http_relay_dial::Dialer;
use http_relay_serve::{Routing, Step, Underway, Worker, go_on};
use http_relay_wire::Wire;
use lb_desk_ports::{Clock, Port};

/// Takes the request under the key one step on, as `go_on` of `http_relay_serve` does, once there is what it waits for. If it still waits, it
/// is kept under the same key. It allocates only to learn from a response.
pub fn turn<'t, R, T: Routing, P: Port<R>, K: Clock<R>, G, D: Dialer<R>, C: Wire>(
    rt: &R,
    worker: &mut Worker<K, G, D>,
    ports: &mut [P],
    room: &mut [u8],
    requests: &mut InFlight<'t, T, P::Slot, D::Connection, C>,
    key: usize,
) -> Progress<C>
    requires ports { length ports.old ≡ requests.old.backends }
    requires room { 0 < length room.old }
    requires key { HasKey requests.old.kept key }
    // Whatever was done before: with those in flight as they are kept, this is one turn more.
    ensures steps { (turns : List (Turn T)) → Keeps (port_seen P.entries P.refusals) P.server_of
        (talk_of D.Connection.written D.Connection.reading D.Connection.faults) (talk_of C.written C.reading C.faults) T.routes turns requests.old
        → Steps (port_seen P.entries P.refusals) P.server_of
        (talk_of D.Connection.written D.Connection.reading D.Connection.faults) (talk_of C.written C.reading C.faults) T.routes
        key (due_to (at requests.old.kept key)) turns
        (worker_seen ports.old (clock_seen K.told K.pauses worker.old.clock) (dialer_seen D.dials D.talks D.failures worker.old.dialer))
        (worker_seen ports.new (clock_seen K.told K.pauses worker.new.clock) (dialer_seen D.dials D.talks D.failures worker.new.dialer))
        requests.new result }
    ensures stays { StaysOrLeaves key requests.old requests.new result }
    ensures most { requests.new.kept.most ≡ requests.old.kept.most }
    ensures kept_backends { requests.new.backends ≡ requests.old.backends }
    ensures pauses { K.pauses worker.new.clock ≡ K.pauses worker.old.clock }
{
    let underway = requests.take(key);
    let backend = underway.backend;
    match go_on(rt, worker, ports, room, underway) {
        Step::Waits(later) => {
            let Underway {
                client,
                backend: _,
                stage,
            } = later;
            Progress::Waits(requests.insert(Underway {
                client,
                backend,
                stage,
            }))
        }
        Step::Done(client, outcome) => Progress::Over(client, outcome),
    }
}

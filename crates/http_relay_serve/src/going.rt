ghost use Rattle.std.specs.Prelude.{◌≡◌, ◌<◌, [], ◌∷◌, length};
ghost use Rattle.http_relay_dial.specs.Dials.{Talk, talk_of};
ghost use Rattle.http_relay_exchange.specs.Requests.{OutgoingView};
ghost use Rattle.http_relay_serve.specs.Parts.{GoesOnAt};
ghost use Rattle.http_relay_serve.specs.Serves.{port_seen, clock_seen, dialer_seen};
ghost use Rattle.http_relay_serve.specs.Steps.{GoesOn, IsVisiting, relayed, visit_of};
ghost use Rattle.http_relay_serve.specs.declared.underway.Stage.TheVariants.{Queueing, Copying};
ghost use Rattle.http_relay_talk.specs.Shares.{Share};
ghost use Rattle.http_relay_talk.specs.Visits.{due};
ghost use Rattle.http_relay_talk.specs.declared.target.Target.{Target};

use crate::serving::end;
use crate::{BackendFault, Outcome, Queued, ServeFault, Stage, Step, Underway, Worker};
use http_relay_dial::Dialer;
use http_relay_talk::{
    Held, Step as Visit, Underway as Visiting, VisitFault, copy_on, go_on as visit_on,
};
use http_relay_wire::Wire;
use lb_desk_ports::{Clock, Port};

/// Takes a request one step on, once there is what it waits for. A pause that it waits for must have been made by then, by the clock or
/// otherwise. In the queue it asks for a connection again, and goes on as `begin` does. Otherwise it copies what one read of the
/// response gives, as much as the room holds. Once the visit of its server is over, it gives the client an answer of the relay's
/// own where that is due. It allocates only to learn from the response. The ports are those of the configuration that the request
/// began with.
pub fn go_on<'t, R, P: Port<R>, K: Clock<R>, G, D: Dialer<R>, C: Wire>(
    rt: &R,
    worker: &mut Worker<K, G, D>,
    ports: &mut [P],
    room: &mut [u8],
    underway: Underway<'t, P::Slot, D::Connection, C>,
) -> Step<'t, P::Slot, D::Connection, C>
    requires backend { underway.backend < length ports.old }
    requires room { 0 < length room.old }
    // Whatever the request has done at its server so far, and others since: with what this step adds to that, it comes to this.
    ensures steps { (target : Target) (request : OutgoingView) (own : Share) (headed : Talk)
        → IsVisiting P.server_of (talk_of D.Connection.written D.Connection.reading D.Connection.faults) target request own headed
        (talk_of C.written C.reading C.faults underway.entry.client.wire) underway.entry.stage
        → GoesOn (port_seen P.entries P.refusals) P.server_of
        (talk_of D.Connection.written D.Connection.reading D.Connection.faults) (talk_of C.written C.reading C.faults)
        target request own headed underway.entry ports.old ports.new
        (clock_seen K.told K.pauses worker.old.clock) (clock_seen K.told K.pauses worker.new.clock)
        (dialer_seen D.dials D.talks D.failures worker.old.dialer) (dialer_seen D.dials D.talks D.failures worker.new.dialer) result }
    ensures pauses { K.pauses worker.new.clock ≡ K.pauses worker.old.clock }
{
    let Underway {
        client,
        backend,
        stage,
    } = underway;
    let mut client = client;
    let gone = go_on_at(
        rt,
        worker,
        &mut ports[backend],
        &mut client.wire,
        room,
        stage,
    );
    match gone {
        Gone::Waits(stage) => Step::Waits(Underway {
            client,
            backend,
            stage,
        }),
        Gone::Over(answer) => {
            let outcome = end(&mut client.wire, Outcome::of(relayed(answer)));
            Step::Done(client, outcome)
        }
    }
}

/// How far a request has come at its server.
enum Gone<'t, S, W> {
    /// It waits.
    Waits(Stage<'t, S, W>),
    /// The visit is over, with this answer.
    Over(Result<u64, VisitFault>),
}

/// Takes a request one step on at its server.
fn go_on_at<'t, R, P: Port<R>, K: Clock<R>, G, D: Dialer<R>, C: Wire>(
    rt: &R,
    worker: &mut Worker<K, G, D>,
    port: &mut P,
    client: &mut C,
    room: &mut [u8],
    stage: Stage<'t, P::Slot, D::Connection>,
) -> Gone<'t, P::Slot, D::Connection>
    requires { 0 < length room.old }
    ensures steps { (target : Target) (request : OutgoingView) (own : Share) (headed : Talk)
        → IsVisiting P.server_of (talk_of D.Connection.written D.Connection.reading D.Connection.faults) target request own headed
        (talk_of C.written C.reading C.faults client.old) stage.entry
        → GoesOnAt P.server_of (talk_of D.Connection.written D.Connection.reading D.Connection.faults) target request own headed
        (talk_of C.written C.reading C.faults client.new)
        (port_seen P.entries P.refusals port.old) (port_seen P.entries P.refusals port.new)
        (clock_seen K.told K.pauses worker.old.clock) (clock_seen K.told K.pauses worker.new.clock)
        (dialer_seen D.dials D.talks D.failures worker.old.dialer) (dialer_seen D.dials D.talks D.failures worker.new.dialer)
        (due (visit_of stage.entry)) result }
    ensures pauses { K.pauses worker.new.clock ≡ K.pauses worker.old.clock }
{
    match stage {
        Stage::Queueing(queued) => ask_on(rt, worker, port, client, room, queued),
        Stage::Copying(held) => read_on(rt, worker, port, client, room, held),
    }
}

/// Asks for a connection again for a request in the queue.
fn ask_on<'t, R, P: Port<R>, K: Clock<R>, G, D: Dialer<R>, C: Wire>(
    rt: &R,
    worker: &mut Worker<K, G, D>,
    port: &mut P,
    client: &mut C,
    room: &mut [u8],
    queued: Queued<'t>,
) -> Gone<'t, P::Slot, D::Connection>
    requires { 0 < length room.old }
    ensures steps { (target : Target) (request : OutgoingView) (own : Share) (headed : Talk)
        → IsVisiting {S = P.Slot} {W = D.Connection} P.server_of (talk_of D.Connection.written D.Connection.reading D.Connection.faults)
        target request own headed (talk_of C.written C.reading C.faults client.old) (Queueing queued.entry)
        → GoesOnAt P.server_of (talk_of D.Connection.written D.Connection.reading D.Connection.faults) target request own headed
        (talk_of C.written C.reading C.faults client.new)
        (port_seen P.entries P.refusals port.old) (port_seen P.entries P.refusals port.new)
        (clock_seen K.told K.pauses worker.old.clock) (clock_seen K.told K.pauses worker.new.clock)
        (dialer_seen D.dials D.talks D.failures worker.old.dialer) (dialer_seen D.dials D.talks D.failures worker.new.dialer)
        (50 ∷ []) result }
    ensures pauses { K.pauses worker.new.clock ≡ K.pauses worker.old.clock }
{
    let Queued {
        target,
        request,
        queueing,
    } = queued;
    let visit = visit_on(
        rt,
        port,
        &mut worker.clock,
        &mut worker.dialer,
        &target,
        &request.outgoing(),
        room,
        Visiting::Queueing(queueing),
        client,
    );
    match visit {
        Visit::Waits(Visiting::Queueing(queueing)) => Gone::Waits(Stage::Queueing(Queued {
            target,
            request,
            queueing,
        })),
        Visit::Waits(Visiting::Copying(held)) => Gone::Waits(Stage::Copying(held)),
        Visit::Done(answer) => Gone::Over(answer),
    }
}

/// Copies what one read of the response gives, for a request that was sent.
fn read_on<'t, R, P: Port<R>, K: Clock<R>, G, D: Dialer<R>, C: Wire>(
    rt: &R,
    worker: &mut Worker<K, G, D>,
    port: &mut P,
    client: &mut C,
    room: &mut [u8],
    held: Held<'t, P::Slot, D::Connection>,
) -> Gone<'t, P::Slot, D::Connection>
    requires { 0 < length room.old }
    ensures steps { (target : Target) (request : OutgoingView) (own : Share) (headed : Talk)
        → IsVisiting P.server_of (talk_of D.Connection.written D.Connection.reading D.Connection.faults) target request own headed
        (talk_of C.written C.reading C.faults client.old) (Copying held.entry)
        → GoesOnAt P.server_of (talk_of D.Connection.written D.Connection.reading D.Connection.faults) target request own headed
        (talk_of C.written C.reading C.faults client.new)
        (port_seen P.entries P.refusals port.old) (port_seen P.entries P.refusals port.new)
        (clock_seen K.told K.pauses worker.old.clock) (clock_seen K.told K.pauses worker.new.clock)
        (dialer_seen D.dials D.talks D.failures worker.old.dialer) (dialer_seen D.dials D.talks D.failures worker.new.dialer)
        [] result }
    ensures pauses { K.pauses worker.new.clock ≡ K.pauses worker.old.clock }
{
    match copy_on(rt, port, &mut worker.dialer, room, held, client) {
        Visit::Waits(Visiting::Copying(held)) => Gone::Waits(Stage::Copying(held)),
        Visit::Waits(Visiting::Queueing(_)) => unreachable!(),
        Visit::Done(answer) => Gone::Over(answer),
    }
}

/// The answer of a request whose visit was over with this one.
fn relayed(answer: Result<u64, VisitFault>) -> Result<u64, ServeFault>
    ensures { result ≡ relayed answer }
{
    match answer {
        Ok(count) => Ok(count),
        Err(fault) => Err(ServeFault::Backend(BackendFault::Visit(fault))),
    }
}

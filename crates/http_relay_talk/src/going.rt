ghost use Rattle.std.specs.Prelude.{◌≡◌, ◌<◌, [], ℕ, List, Option, length};
ghost use Rattle.http_relay_dial.specs.Dials.{Talk, talk_of};
ghost use Rattle.http_relay_exchange.specs.Requests.{OutgoingView};
ghost use Rattle.http_relay_talk.specs.Shares.{Share, records};
ghost use Rattle.http_relay_talk.specs.Visits.{IsUnderway, IsCopying, Nears, Steps, due};
ghost use Rattle.http_relay_talk.specs.declared.target.Target.{Target};
ghost use Rattle.http_relay_talk.specs.declared.underway.Underway.TheVariants.{Copying};

use crate::finishing::finish;
use crate::opening::after_asking;
use crate::{Held, Step, Target, Underway};
use http_relay_body::{read_piece, write_piece};
use http_relay_dial::Dialer;
use http_relay_exchange::Outgoing;
use http_relay_queue::ask_again;
use http_relay_wire::Wire;
use lb_desk_ports::{Clock, Port};

/// Takes a visit one step on, once there is what it waits for. A pause that it waits for must have been made by then, by the clock or
/// otherwise. A visit in the queue asks for a connection again, and goes on as `begin_visit` does. Another copies what one read of the
/// response gives, as much as the room holds; at the end of the response, or if something failed, it hangs up and gives the slot
/// back. Target and request are those that the visit began with.
pub fn go_on<'a, R, P: Port<R>, K: Clock<R>, D: Dialer<R>, C: Wire>(
    rt: &R,
    port: &mut P,
    clock: &mut K,
    dialer: &mut D,
    target: &Target<'a>,
    request: &Outgoing<'_>,
    room: &mut [u8],
    underway: Underway<'a, P::Slot, D::Connection>,
    client: &mut C,
) -> Step<'a, P::Slot, D::Connection>
    requires { 0 < length room.old }
    // Whatever the visit has done so far, and others since: with what this step adds to that, it stands so.
    ensures steps { (own : Share) (before : Talk)
        → IsUnderway P.server_of (talk_of D.Connection.written D.Connection.reading D.Connection.faults) target.now request.now own before
        (talk_of C.written C.reading C.faults client.old) underway.entry
        → Steps P.server_of (talk_of D.Connection.written D.Connection.reading D.Connection.faults) target.now request.now own before
        (talk_of C.written C.reading C.faults client.new)
        (records P.entries P.refusals D.dials D.talks D.failures port.old (K.told clock.old) dialer.old)
        (records P.entries P.refusals D.dials D.talks D.failures port.new (K.told clock.new) dialer.new) (due underway.entry) result }
    ensures pauses { K.pauses clock.new ≡ K.pauses clock.old }
    ensures nears { Nears target.now.queue D.Connection.reading underway.entry result }
{
    match underway {
        Underway::Queueing(queueing) => {
            let asking = ask_again(rt, port, clock, target.server, target.queue, queueing);
            after_asking(rt, port, dialer, target, request, asking, client)
        }
        Underway::Copying(held) => copy_on(rt, port, dialer, room, held, client),
    }
}

/// Takes a visit whose request was sent one step on, as `go_on` does. What was read is learned from before it is written. It needs
/// neither target nor request: a visit that waits for its server has to keep neither.
pub fn copy_on<'a, R, P: Port<R>, D: Dialer<R>, C: Wire>(
    rt: &R,
    port: &mut P,
    dialer: &mut D,
    room: &mut [u8],
    held: Held<'a, P::Slot, D::Connection>,
    client: &mut C,
) -> Step<'a, P::Slot, D::Connection>
    requires { 0 < length room.old }
    // Whatever the visit has done so far, and others since: with what this step adds to that, it stands so. The clock isn't read.
    ensures steps { (target : Target) (request : OutgoingView) (own : Share) (before : Talk) (told : Option (List ℕ))
        → IsCopying P.server_of (talk_of D.Connection.written D.Connection.reading D.Connection.faults) target request own before
        (talk_of C.written C.reading C.faults client.old) held.entry
        → Steps P.server_of (talk_of D.Connection.written D.Connection.reading D.Connection.faults) target request own before
        (talk_of C.written C.reading C.faults client.new)
        (records P.entries P.refusals D.dials D.talks D.failures port.old told dialer.old)
        (records P.entries P.refusals D.dials D.talks D.failures port.new told dialer.new) [] result }
    ensures nears { (limit : Option ℕ) → Nears limit D.Connection.reading (Copying held.entry) result }
{
    let Held {
        slot,
        mut connection,
        copied,
        learning,
    } = held;
    let count = match read_piece(&mut connection, room, copied) {
        Ok(0) => return Step::Done(finish(rt, port, dialer, slot, connection, Ok(copied))),
        Ok(count) => count,
        Err(fault) => return Step::Done(finish(rt, port, dialer, slot, connection, Err(fault))),
    };
    let piece = &room[..count];
    let learning = learning.learn(rt, port, piece);
    match write_piece(client, piece, copied) {
        Ok(copied) => Step::Waits(Underway::Copying(Held {
            slot,
            connection,
            copied,
            learning,
        })),
        Err(fault) => Step::Done(finish(rt, port, dialer, slot, connection, Err(fault))),
    }
}

ghost use Rattle.std.specs.Prelude.{◌<◌, length};
ghost use Rattle.http_relay_dial.specs.Dials.{Talk, talk_of};
ghost use Rattle.http_relay_talk.specs.Lessons.{Taught};
ghost use Rattle.http_relay_talk.specs.Openings.{HasLeftQueue, Passes, reads_left};
ghost use Rattle.http_relay_talk.specs.Shares.{Share, records};
ghost use Rattle.http_relay_talk.specs.Talks.{UsesPort, UsesDialer};
ghost use Rattle.http_relay_talk.specs.Visits.{IsUnderway, Stands};
ghost use Rattle.http_relay_talk.specs.declared.underway.Step.TheVariants.{Waits, Done};

use crate::{Step, Target, Underway, VisitFault, begin_visit, go_on};
use http_relay_dial::Dialer;
use http_relay_exchange::Outgoing;
use http_relay_queue::PAUSE;
use http_relay_wire::Wire;
use lb_desk_ports::{Clock, Port};

/// The most bytes of a response that are moved at once: with as many, a system call costs little beside the bytes that it moves.
const ROOM: usize = 65536;

/// The bytes of the room that a response begins in. Most end within it, and a room costs as many bytes written as it has.
const FIRST_ROOM: usize = 4096;

/// Sends the request to its server and copies the response: waits for a connection while the server is full, dials, exchanges,
/// hangs up, and gives the connection back. It answers how many bytes the server sent, at most 2^64 - 1.
pub fn visit<R, P: Port<R>, K: Clock<R>, D: Dialer<R>, C: Wire>(
    rt: &R,
    port: &mut P,
    clock: &mut K,
    dialer: &mut D,
    target: &Target<'_>,
    request: &Outgoing<'_>,
    client: &mut C,
) -> Result<u64, VisitFault>
    // A slot is got at most once, at this server, and where it was got it is given back. Between the two a pin may be set, as the bytes
    // teach it that were read of the server.
    ensures { (taught : Taught) × UsesPort P.server_of target.now taught (P.entries port.old) (P.entries port.new)
        (P.refusals port.old) (P.refusals port.new)
        (K.told clock.old) (K.told clock.new) (K.pauses clock.old) (K.pauses clock.new) result
        × UsesDialer target.now taught request.now (D.dials dialer.old) (D.dials dialer.new) (D.talks dialer.old) (D.talks dialer.new)
        (D.failures dialer.old) (D.failures dialer.new)
        (talk_of C.written C.reading C.faults client.old) (talk_of C.written C.reading C.faults client.new) result }
{
    let mut room = [0; FIRST_ROOM];
    let begun = begin_visit(rt, port, clock, dialer, target, request, client);
    let sent = leave_queue(
        rt, port, clock, dialer, target, request, &mut room, begun, client,
    );
    match sent {
        Step::Done(answer) => answer,
        Step::Waits(underway) => copy(
            rt, port, clock, dialer, target, request, &mut room, underway, client,
        ),
    }
}

/// Takes a visit out of the queue. It pauses wherever a pause is due.
fn leave_queue<'a, R, P: Port<R>, K: Clock<R>, D: Dialer<R>, C: Wire>(
    rt: &R,
    port: &mut P,
    clock: &mut K,
    dialer: &mut D,
    target: &Target<'a>,
    request: &Outgoing<'_>,
    room: &mut [u8],
    begun: Step<'a, P::Slot, D::Connection>,
    client: &mut C,
) -> Step<'a, P::Slot, D::Connection>
    requires { 0 < length room.old }
    ensures passes { (own : Share) (before : Talk)
        → Stands P.server_of (talk_of D.Connection.written D.Connection.reading D.Connection.faults) target.now request.now own before
        (talk_of C.written C.reading C.faults client.old) begun.entry
        → Passes P.server_of (talk_of D.Connection.written D.Connection.reading D.Connection.faults) target.now request.now own before
        (talk_of C.written C.reading C.faults client.new)
        (records P.entries P.refusals D.dials D.talks D.failures port.old (K.told clock.old) dialer.old)
        (records P.entries P.refusals D.dials D.talks D.failures port.new (K.told clock.new) dialer.new)
        (K.pauses clock.old) (K.pauses clock.new) result }
    ensures left { HasLeftQueue result }
{
    let mut step = begun;
    loop {
        match step {
            Step::Done(answer) => return Step::Done(answer),
            Step::Waits(Underway::Copying(held)) => return Step::Waits(Underway::Copying(held)),
            Step::Waits(Underway::Queueing(queueing)) => {
                clock.pause(rt, PAUSE);
                let underway = Underway::Queueing(queueing);
                step = go_on(
                    rt, port, clock, dialer, target, request, room, underway, client,
                );
            }
        }
    }
}

/// Copies a response and ends the visit. The bytes go through this room until a read fills it, and then through a larger one.
fn copy<'a, R, P: Port<R>, K: Clock<R>, D: Dialer<R>, C: Wire>(
    rt: &R,
    port: &mut P,
    clock: &mut K,
    dialer: &mut D,
    target: &Target<'a>,
    request: &Outgoing<'_>,
    room: &mut [u8],
    underway: Underway<'a, P::Slot, D::Connection>,
    client: &mut C,
) -> Result<u64, VisitFault>
    requires room { 0 < length room.old }
    requires left { HasLeftQueue (Waits underway) }
    ensures { (own : Share) (before : Talk)
        → IsUnderway P.server_of (talk_of D.Connection.written D.Connection.reading D.Connection.faults) target.now request.now own before
        (talk_of C.written C.reading C.faults client.old) underway.entry
        → Passes P.server_of (talk_of D.Connection.written D.Connection.reading D.Connection.faults) target.now request.now own before
        (talk_of C.written C.reading C.faults client.new)
        (records P.entries P.refusals D.dials D.talks D.failures port.old (K.told clock.old) dialer.old)
        (records P.entries P.refusals D.dials D.talks D.failures port.new (K.told clock.new) dialer.new)
        (K.pauses clock.old) (K.pauses clock.new) (Done result) }
{
    let copied = copy_through(
        rt, port, clock, dialer, target, request, room, underway, client,
    );
    match copied {
        Step::Done(answer) => answer,
        Step::Waits(underway) => {
            copy_rest(rt, port, clock, dialer, target, request, underway, client)
        }
    }
}

/// Copies a response through this room, until the visit is over or a read fills the room.
fn copy_through<'a, R, P: Port<R>, K: Clock<R>, D: Dialer<R>, C: Wire>(
    rt: &R,
    port: &mut P,
    clock: &mut K,
    dialer: &mut D,
    target: &Target<'a>,
    request: &Outgoing<'_>,
    room: &mut [u8],
    underway: Underway<'a, P::Slot, D::Connection>,
    client: &mut C,
) -> Step<'a, P::Slot, D::Connection>
    requires room { 0 < length room.old }
    requires left { HasLeftQueue (Waits underway) }
    ensures passes { (own : Share) (before : Talk)
        → IsUnderway P.server_of (talk_of D.Connection.written D.Connection.reading D.Connection.faults) target.now request.now own before
        (talk_of C.written C.reading C.faults client.old) underway.entry
        → Passes P.server_of (talk_of D.Connection.written D.Connection.reading D.Connection.faults) target.now request.now own before
        (talk_of C.written C.reading C.faults client.new)
        (records P.entries P.refusals D.dials D.talks D.failures port.old (K.told clock.old) dialer.old)
        (records P.entries P.refusals D.dials D.talks D.failures port.new (K.told clock.new) dialer.new)
        (K.pauses clock.old) (K.pauses clock.new) result }
    ensures left { HasLeftQueue result }
    ensures fewer { reads_left D.Connection.reading result < reads_left D.Connection.reading (Waits underway.entry) }
{
    let mut underway = underway;
    loop {
        let before = underway.copied();
        let step = go_on(
            rt, port, clock, dialer, target, request, room, underway, client,
        );
        match step {
            Step::Done(answer) => return Step::Done(answer),
            Step::Waits(later) => {
                let count = later.copied().saturating_sub(before);
                if count == room.len() as u64 {
                    return Step::Waits(later);
                }
                underway = later;
            }
        }
    }
}

/// Copies the rest of a response of which a read has filled the first room. The room is in a frame of its own, whose pages are touched
/// when it is entered: a response that ends within the first room costs none of this memory.
#[inline(never)]
fn copy_rest<'a, R, P: Port<R>, K: Clock<R>, D: Dialer<R>, C: Wire>(
    rt: &R,
    port: &mut P,
    clock: &mut K,
    dialer: &mut D,
    target: &Target<'a>,
    request: &Outgoing<'_>,
    underway: Underway<'a, P::Slot, D::Connection>,
    client: &mut C,
) -> Result<u64, VisitFault>
    requires { HasLeftQueue (Waits underway) }
    ensures { (own : Share) (before : Talk)
        → IsUnderway P.server_of (talk_of D.Connection.written D.Connection.reading D.Connection.faults) target.now request.now own before
        (talk_of C.written C.reading C.faults client.old) underway.entry
        → Passes P.server_of (talk_of D.Connection.written D.Connection.reading D.Connection.faults) target.now request.now own before
        (talk_of C.written C.reading C.faults client.new)
        (records P.entries P.refusals D.dials D.talks D.failures port.old (K.told clock.old) dialer.old)
        (records P.entries P.refusals D.dials D.talks D.failures port.new (K.told clock.new) dialer.new)
        (K.pauses clock.old) (K.pauses clock.new) (Done result) }
{
    let mut room = [0; ROOM];
    let mut underway = underway;
    loop {
        let step = copy_through(
            rt, port, clock, dialer, target, request, &mut room, underway, client,
        );
        match step {
            Step::Done(answer) => return answer,
            Step::Waits(later) => underway = later,
        }
    }
}

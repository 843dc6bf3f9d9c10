ghost use Rattle.std.specs.Prelude.{◌≡◌, [], List, Option, Ok, ℕ};
ghost use Rattle.http_relay_dial.specs.Dials.{talk_of};
ghost use Rattle.http_relay_queue.specs.declared.asking.Asking.TheVariants.{Full, Ended};
ghost use Rattle.http_relay_queue.specs.declared.queue.Waited.TheVariants.{Opened};
ghost use Rattle.http_relay_talk.specs.Openings.{DialsAndSends, HasAsked, HasLeftQueue, IfQueueing};
ghost use Rattle.http_relay_talk.specs.Shares.{Share, records};
ghost use Rattle.http_relay_talk.specs.Visits.{Steps};

use crate::{Held, Learning, Step, TalkFault, Target, Underway, VisitFault};
use http_relay_dial::Dialer;
use http_relay_exchange::{ExchangeFault, Outgoing, send_request};
use http_relay_queue::{Asking, Waited};
use http_relay_wire::Wire;
use lb_desk_ports::{Port, Refused};

/// Goes on with a visit that has asked for a connection with this answer.
pub(crate) fn after_asking<'a, R, P: Port<R>, D: Dialer<R>, C: Wire>(
    rt: &R,
    port: &mut P,
    dialer: &mut D,
    target: &Target<'a>,
    request: &Outgoing<'_>,
    asking: Result<Asking<P::Slot>, Refused>,
    client: &mut C,
) -> Step<'a, P::Slot, D::Connection>
    ensures steps { (own : Share) (told : Option (List ℕ)) → HasAsked P.server_of target.now own asking
        → Steps P.server_of (talk_of D.Connection.written D.Connection.reading D.Connection.faults) target.now request.now own
        (talk_of C.written C.reading C.faults client.old) (talk_of C.written C.reading C.faults client.new)
        (records P.entries P.refusals D.dials D.talks D.failures port.old told dialer.old)
        (records P.entries P.refusals D.dials D.talks D.failures port.new told dialer.new) [] result }
    ensures queueing { IfQueueing result (λ queueing. asking ≡ Ok (Full queueing)) }
{
    let waited = match asking {
        Ok(Asking::Ended(waited)) => waited,
        Ok(Asking::Full(queueing)) => return Step::Waits(Underway::Queueing(queueing)),
        Err(refused) => return Step::Done(Err(VisitFault::Refused(refused))),
    };
    match waited {
        Waited::Opened(slot) => send(rt, port, dialer, target, request, slot, client),
        Waited::NotServing => Step::Done(Err(VisitFault::NotServing)),
        Waited::Over => Step::Done(Err(VisitFault::QueueOver)),
    }
}

/// Dials the server and sends the request, for a visit that has got this slot. If that fails, the slot is given back.
fn send<'a, R, P: Port<R>, D: Dialer<R>, C: Wire>(
    rt: &R,
    port: &mut P,
    dialer: &mut D,
    target: &Target<'a>,
    request: &Outgoing<'_>,
    slot: P::Slot,
    client: &mut C,
) -> Step<'a, P::Slot, D::Connection>
    ensures steps { (own : Share) (told : Option (List ℕ)) → HasAsked P.server_of target.now own (Ok (Ended (Opened slot)))
        → Steps P.server_of (talk_of D.Connection.written D.Connection.reading D.Connection.faults) target.now request.now own
        (talk_of C.written C.reading C.faults client.old) (talk_of C.written C.reading C.faults client.new)
        (records P.entries P.refusals D.dials D.talks D.failures port.old told dialer.old)
        (records P.entries P.refusals D.dials D.talks D.failures port.new told dialer.new) [] result }
    ensures queueing { HasLeftQueue result }
{
    match dial_and_send(rt, dialer, target, request, client) {
        Ok(connection) => Step::Waits(Underway::Copying(Held {
            slot,
            connection,
            copied: 0,
            learning: Learning::new(target),
        })),
        Err(fault) => {
            let _shut = port.shut(rt, slot);
            Step::Done(Err(VisitFault::Talk(fault)))
        }
    }
}

/// Dials the server with the request's opening and sends the request. If that can't be sent, it hangs up.
fn dial_and_send<R, D: Dialer<R>, C: Wire>(
    rt: &R,
    dialer: &mut D,
    target: &Target<'_>,
    request: &Outgoing<'_>,
    client: &mut C,
) -> Result<D::Connection, TalkFault>
    ensures { DialsAndSends (talk_of D.Connection.written D.Connection.reading D.Connection.faults) target.now request.now
        (D.dials dialer.old) (D.dials dialer.new) (D.talks dialer.old) (D.talks dialer.new) (D.failures dialer.old) (D.failures dialer.new)
        (talk_of C.written C.reading C.faults client.old) (talk_of C.written C.reading C.faults client.new) result }
{
    let (mut connection, taken) = match dialer.dial(
        rt,
        target.endpoint,
        target.limits,
        request.opening(),
    ) {
        Ok(dialled) => dialled,
        Err(fault) => return Err(TalkFault::Dial(fault)),
    };
    match send_request(request, taken, client, &mut connection) {
        Ok(()) => Ok(connection),
        Err(fault) => {
            dialer.hang_up(rt, connection);
            Err(TalkFault::Exchange(ExchangeFault::Send(fault)))
        }
    }
}

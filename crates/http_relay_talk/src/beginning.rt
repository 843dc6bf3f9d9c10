ghost use Rattle.std.specs.Prelude.{◌≡◌, []};
ghost use Rattle.http_relay_dial.specs.Dials.{talk_of};
ghost use Rattle.http_relay_talk.specs.Shares.{nothing, records};
ghost use Rattle.http_relay_talk.specs.Visits.{Steps};

use crate::opening::after_asking;
use crate::{Step, Target};
use http_relay_dial::Dialer;
use http_relay_exchange::Outgoing;
use http_relay_queue::ask_first;
use http_relay_wire::Wire;
use lb_desk_ports::{Clock, Port};

/// Begins a visit: asks for a connection to the server, and if it gets one dials and sends the request. It reads nothing of the
/// response, and waits neither for that nor while the server is full. While it dials and sends it holds its thread.
pub fn begin_visit<'a, R, P: Port<R>, K: Clock<R>, D: Dialer<R>, C: Wire>(
    rt: &R,
    port: &mut P,
    clock: &mut K,
    dialer: &mut D,
    target: &Target<'a>,
    request: &Outgoing<'_>,
    client: &mut C,
) -> Step<'a, P::Slot, D::Connection>
    ensures steps { Steps P.server_of (talk_of D.Connection.written D.Connection.reading D.Connection.faults) target.now request.now nothing
        (talk_of C.written C.reading C.faults client.old) (talk_of C.written C.reading C.faults client.new)
        (records P.entries P.refusals D.dials D.talks D.failures port.old (K.told clock.old) dialer.old)
        (records P.entries P.refusals D.dials D.talks D.failures port.new (K.told clock.new) dialer.new) [] result }
    ensures pauses { K.pauses clock.new ≡ K.pauses clock.old }
{
    let asking = ask_first(rt, port, clock, target.server, target.queue);
    after_asking(rt, port, dialer, target, request, asking, client)
}

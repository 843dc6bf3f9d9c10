ghost use Rattle.http_relay_dial.specs.Dials.{talk_of};
ghost use Rattle.http_relay_serve.specs.Serves.{port_seen};
ghost use Rattle.http_relay_serve.specs.Steps.{StepsAddUp};

use crate::Routing;
use http_relay_dial::Dialer;
use http_relay_wire::Wire;
use lb_desk_ports::Port;

/// The law of the steps of a request, by which those of a request that was begun add up to one service. It does nothing.
pub fn steps_add_up<R, T: Routing, P: Port<R>, D: Dialer<R>, C: Wire>(routing: &T)
    ensures { StepsAddUp (port_seen P.entries P.refusals) P.server_of
        (talk_of D.Connection.written D.Connection.reading D.Connection.faults) (talk_of C.written C.reading C.faults) (T.routes routing.now) }
{
    let _routing = routing;
}

ghost use Rattle.http_relay_inflight.specs.OneByOne.{OneByOne};
ghost use Rattle.http_relay_serve.specs.Serves.{port_seen};

use http_relay_serve::Routing;
use lb_desk_ports::Port;

/// The law of a worker that serves one request at a time: what it does in turns is what it does one request after another. It does
/// nothing.
pub fn one_by_one<R, T: Routing, P: Port<R>>(routing: &T)
    ensures { OneByOne (port_seen P.entries P.refusals) P.server_of T.routes }
{
    let _routing = routing;
}

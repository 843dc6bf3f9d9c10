ghost use Rattle.std.specs.Prelude.{◌≡◌, ◌≤◌, List, length};
ghost use Rattle.http_relay_serve.specs.Serves.{port_seen};
ghost use Rattle.http_relay_work.specs.Services.{Service, ServesInTurn};

use crate::waiting::next_arrival;
use crate::{Leavers, Post, Relay, end_served, over_wire, serve_arrival};
use http_relay_head::HEAD_ROOM;
use http_relay_lobby::WaitingLine;
use http_relay_serve::Worker;
use http_relay_system::{SocketDialer, SystemClock};
use lb_desk_ports::{Gate, Port};
use std::alloc::Global;
use std::net::Net;
use std::os::fd::AsRawFd;
use std::sync::Wait;
use std::time::Clock;

/// Serves one connection after another until the line is empty and all that put connections into it are gone. Then it gives the ports
/// back, one for each backend. That the line has ended is the whole notice of a stop: what is in the line is served before. A worker on
/// call rests if it isn't needed at the line, and also ends if it rests and nothing calls it any more.
///
/// All that a worker needs for its requests is made before the first; a request allocates three times, and never after its
/// dial. A client that doesn't close its connection at once is waited for beside the next requests. Where the line has ended the
/// worker waits for the last of them, for a second at most. One that was reset while it was in the line is closed, and no port is used;
/// so is each one once clients are cut off.
pub fn work<R, P, G>(
    rt: &R,
    alloc: Global,
    relay: Relay<'_>,
    line: &WaitingLine<R::Stream>,
    post: Post<'_>,
    gate: G,
    ports: Vec<P>,
) -> Vec<P>
where
    R: Net + Clock + Wait,
    R::Stream: AsRawFd,
    P: Port<R>,
    G: Gate<R> + Drop,
    requires { length relay.config.now.backends ≤ length ports.items }
    ensures count { length result.items ≡ length ports.items }
    ensures served { (services : List Service) × ServesInTurn (port_seen P.entries P.refusals) P.server_of relay.entry.config.now
        ports.items result.items services }
{
    let mut worker = Worker {
        clock: SystemClock::beside(relay.start, post.client()),
        gate,
        dialer: SocketDialer::beside(post.client()),
    };
    let mut room = [0; HEAD_ROOM];
    let mut leavers = if post.is_on_call() {
        Leavers::on_call(alloc)
    } else {
        Leavers::new(alloc)
    };
    let mut ports = ports;
    for _ in rt.forever() {
        let Some(arrival) = next_arrival(rt, line, post, &mut leavers, &mut room) else {
            break;
        };
        post.begin();
        let served = serve_arrival(
            rt,
            alloc,
            relay,
            &mut worker,
            over_wire(arrival),
            &mut ports,
            &mut room,
        );
        if let Some(served) = served {
            end_served(rt, &mut worker, served, &mut leavers);
        }
        post.end();
    }
    ports
}

ghost use Rattle.std.specs.Prelude.{◌≡◌};
ghost use Rattle.lb_desk_ports.specs.Calls.{after_call};
ghost use Rattle.http_relay_queue.specs.Queues.{Queued, IfOpened};

use crate::limit::PAUSE;
use crate::{Asking, ask_again, ask_first};
use lb_desk_ports::{Clock, Port, Refused};
use lb_types::ServerId;

/// How a wait for a connection ended.
pub enum Waited<S> {
    /// The connection is open until this slot is given back.
    Opened(S),
    /// The server doesn't serve, or no longer.
    NotServing,
    /// The server was full until the wait was over.
    Over,
}

/// Opens a connection to the server, and waits for it while the server is full: for so many milliseconds, or without a limit for
/// 2^62 pauses. With a limit of 0 it doesn't wait. The error is the port's, and no connection is open then.
pub fn open_in_queue<R, P: Port<R>, K: Clock<R>>(
    rt: &R,
    port: &mut P,
    clock: &mut K,
    server: ServerId,
    limit: Option<u32>,
) -> Result<Waited<P::Slot>, Refused>
    ensures queued { Queued limit server result (P.entries port.old) (P.entries port.new)
        (K.told clock.old) (K.told clock.new) (K.pauses clock.old) (K.pauses clock.new) }
    ensures slot { IfOpened result (λ slot. P.server_of slot ≡ server) }
    ensures refusals { P.refusals port.new ≡ after_call result (P.refusals port.old) }
{
    let mut asking = ask_first(rt, port, clock, server, limit);
    loop {
        match asking {
            Err(refused) => return Err(refused),
            Ok(Asking::Ended(waited)) => return Ok(waited),
            Ok(Asking::Full(queueing)) => {
                clock.pause(rt, PAUSE);
                asking = ask_again(rt, port, clock, server, limit, queueing);
            }
        }
    }
}

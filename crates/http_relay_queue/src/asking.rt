ghost use Rattle.std.specs.Prelude.{◌≡◌, ◌<◌, ◌++◌, ◌∷◌, [], ℕ, List};
ghost use Rattle.lb_desk_model.specs.declared.entry.Entry.{Entry};
ghost use Rattle.lb_desk_ports.specs.Calls.{Grows, after_call};
ghost use Rattle.http_relay_queue.specs.Asks.{Asks, IfFull, IfOpened, IsQueueing, pauses_left};

use crate::Waited;
use crate::limit::is_over;
use lb_desk_ports::{Clock, Opening, Port, Refused};
use lb_types::ServerId;

/// A wait before a server that was full just now. A pause of 50 ms is due before the server is asked again.
#[derive(Clone, Copy, Debug, PartialEq, Eq)]
pub struct Queueing {
    /// The moment when the server was first full, in milliseconds.
    pub start: u64,
    /// How many pauses were made, with the one that is due.
    pub pauses: u64,
}

/// What came of asking for a connection once.
pub enum Asking<S> {
    /// The server is full, and the wait isn't over.
    Full(Queueing),
    /// The wait has ended.
    Ended(Waited<S>),
}

/// Asks for a connection to the server, once. If the server is full, the wait begins, for so many milliseconds as in `open_in_queue`. It
/// pauses nowhere. The error is the port's, and no connection is open then.
pub fn ask_first<R, P: Port<R>, K: Clock<R>>(
    rt: &R,
    port: &mut P,
    clock: &mut K,
    server: ServerId,
    limit: Option<u32>,
) -> Result<Asking<P::Slot>, Refused>
    ensures asks { (more : List Entry) × (moments : List ℕ) × (P.entries port.new ≡ P.entries port.old ++ more)
        × Grows (K.told clock.old) (K.told clock.new) moments × Asks limit server more moments [] result }
    ensures pauses { K.pauses clock.new ≡ K.pauses clock.old }
    ensures slot { IfOpened result (λ slot. P.server_of slot ≡ server) }
    ensures refusals { P.refusals port.new ≡ after_call result (P.refusals port.old) }
{
    let opening = match port.open(rt, server) {
        Ok(opening) => opening,
        Err(refused) => return Err(refused),
    };
    match opening {
        Opening::Opened(slot) => Ok(Asking::Ended(Waited::Opened(slot))),
        Opening::NotServing => Ok(Asking::Ended(Waited::NotServing)),
        Opening::Full => {
            let start = clock.now(rt).as_millis();
            if is_over(limit, 0, 0) {
                return Ok(Asking::Ended(Waited::Over));
            }
            Ok(Asking::Full(Queueing { start, pauses: 1 }))
        }
    }
}

/// Asks again, once, after the pause that was due. Server and limit are those of the first call. It pauses nowhere. The error is the
/// port's, and no connection is open then.
pub fn ask_again<R, P: Port<R>, K: Clock<R>>(
    rt: &R,
    port: &mut P,
    clock: &mut K,
    server: ServerId,
    limit: Option<u32>,
    queueing: Queueing,
) -> Result<Asking<P::Slot>, Refused>
    // Whatever this wait has added to entries, moments and pauses, and others since: with this question and its pause it stands so.
    ensures asks { (entries : List Entry) (told : List ℕ) (pauses : List ℕ) → IsQueueing limit server entries told pauses queueing
        → (more : List Entry) × (moments : List ℕ) × (P.entries port.new ≡ P.entries port.old ++ more)
        × Grows (K.told clock.old) (K.told clock.new) moments × Asks limit server (entries ++ more) (told ++ moments) (pauses ++ 50 ∷ []) result }
    ensures pauses { K.pauses clock.new ≡ K.pauses clock.old }
    ensures slot { IfOpened result (λ slot. P.server_of slot ≡ server) }
    ensures refusals { P.refusals port.new ≡ after_call result (P.refusals port.old) }
    ensures left { IfFull result (λ later. pauses_left limit later < pauses_left limit queueing) }
{
    let opening = match port.open(rt, server) {
        Ok(opening) => opening,
        Err(refused) => return Err(refused),
    };
    match opening {
        Opening::Opened(slot) => Ok(Asking::Ended(Waited::Opened(slot))),
        Opening::NotServing => Ok(Asking::Ended(Waited::NotServing)),
        Opening::Full => {
            let now = clock.now(rt).as_millis();
            let Queueing { start, pauses } = queueing;
            if is_over(limit, pauses, now.saturating_sub(start)) {
                return Ok(Asking::Ended(Waited::Over));
            }
            Ok(Asking::Full(Queueing {
                start,
                pauses: pauses + 1,
            }))
        }
    }
}

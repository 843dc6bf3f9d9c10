ghost use Rattle.std.specs.Prelude.{◌≡◌, ◌∷◌, [], ℕ, List, Option, IfOk};
ghost use Rattle.lb_desk_ports.specs.Calls.{Grows};
ghost use Rattle.http_relay_dial.specs.Dials.{Dial, Talk, HasTaken, dial_of, talk_of, after_dial};

use crate::{Endpoint, Limits};
use http_relay_wire::{Wire, WireFault};

/// What makes connections to servers, and ends them.
pub trait Dialer<R> {
    /// A connection to a server. It can't be dropped: the caller that got it gives it back.
    type Connection: Wire;

    /// The dials that were made, in their order, as far as they are recorded.
    ghost dials: { Self → Option (List Dial) };

    /// The connections that were given back, in the order of that, as far as they are recorded.
    ghost talks: { Self → Option (List Talk) };

    /// How many dials failed. A count that has reached 2^64 - 1 stays there.
    ghost failures: { Self → ℕ };

    /// Connects to the endpoint, and writes a beginning of these bytes as soon as that can be. It answers how many the connection has
    /// taken, which may be none; nothing else was written, nothing was read, and nothing has failed. One that broke before it took
    /// any has taken none, and its next write fails. The fault says whether the limit to connect ran out.
    fn dial(
        &mut self,
        rt: &R,
        endpoint: Endpoint,
        limits: Limits,
        first: &[u8],
    ) -> Result<(Self::Connection, usize), WireFault>
        ensures dials { Grows (dials self.old) (dials self.new) (dial_of endpoint limits Self.Connection.reading result ∷ []) }
        ensures talks { talks self.new ≡ talks self.old }
        ensures failures { failures self.new ≡ after_dial result (failures self.old) }
        ensures taken { IfOk result (λ dialled. HasTaken first.now dialled.1
            (talk_of Self.Connection.written Self.Connection.reading Self.Connection.faults dialled.0)) };

    /// Ends the connection.
    fn hang_up(&mut self, rt: &R, connection: Self::Connection)
        ensures talks { Grows (talks self.old) (talks self.new)
            (talk_of Self.Connection.written Self.Connection.reading Self.Connection.faults connection ∷ []) }
        ensures dials { dials self.new ≡ dials self.old }
        ensures failures { failures self.new ≡ failures self.old };
}

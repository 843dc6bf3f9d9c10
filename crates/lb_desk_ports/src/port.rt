ghost use Rattle.std.specs.Prelude.{◌≡◌, ◌++◌, ℕ, List};
ghost use Rattle.lb_desk_model.specs.declared.entry.Entry.{Entry};
ghost use Rattle.lb_desk_ports.specs.Calls.{after_call};
ghost use Rattle.lb_desk_ports.specs.Ports.{AddsAsk, opening_entries, pinning_entries, shutting_entries, filing_entries, IfOpened};

use crate::{Asked, Filed, Opening, Pinning, Refused, Shut};
use lb_desk_model::{Request, SetPin};
use lb_types::ServerId;

/// A backend, as a caller that serves requests or files checks sees it. Each call makes one event, one step of the backend, but `ask`
/// makes two. A call that is refused when out of memory or as `Worn` makes none, except for the first of the two of `ask`.
pub trait Port<R> {
    /// A connection that is open at a server. It can't be dropped: the caller that got it gives it back.
    type Slot;

    /// The events that were made through this port, each with its reply, in their order. They are in the backend's journal,
    /// those of others between them.
    ghost entries: { Self → List Entry };

    /// How many calls were refused. A count that has reached 2^64 - 1 stays there.
    ghost refusals: { Self → ℕ };

    /// The server that the connection is open at.
    ghost server_of: { Self.Slot → ℕ };

    /// Asks for a request's server: first pins go that weren't used for long at the request's moment, and then the request is
    /// served.
    fn ask(&mut self, rt: &R, request: Request) -> Result<Asked, Refused>
        ensures entries { AddsAsk request (entries self.old) (entries self.new) result }
        ensures refusals { refusals self.new ≡ after_call result (refusals self.old) };

    /// Has a pin stand at a server, where its session was seen.
    fn set(&mut self, rt: &R, pin: SetPin) -> Result<Pinning, Refused>
        ensures entries { entries self.new ≡ entries self.old ++ pinning_entries pin result }
        ensures refusals { refusals self.new ≡ after_call result (refusals self.old) };

    /// Opens a connection to the server.
    fn open(&mut self, rt: &R, server: ServerId) -> Result<Opening<Self::Slot>, Refused>
        ensures entries { entries self.new ≡ entries self.old ++ opening_entries server result }
        ensures slot { IfOpened result (λ slot. server_of slot ≡ server) }
        ensures refusals { refusals self.new ≡ after_call result (refusals self.old) };

    /// Gives the connection back. It is spent, whatever the answer.
    fn shut(&mut self, rt: &R, slot: Self::Slot) -> Result<Shut, Refused>
        ensures entries { entries self.new ≡ entries self.old ++ shutting_entries (server_of slot) result }
        ensures refusals { refusals self.new ≡ after_call result (refusals self.old) };

    /// Files the result of a check of the server: whether it succeeded.
    fn check(&mut self, rt: &R, server: ServerId, ok: bool) -> Result<Filed, Refused>
        ensures entries { entries self.new ≡ entries self.old ++ filing_entries server ok result }
        ensures refusals { refusals self.new ≡ after_call result (refusals self.old) };
}

ghost use Rattle.std.specs.Prelude.{◌≡◌, ◌++◌};
ghost use Rattle.lb_desk_ports.specs.Ports.{AddsAsk, filing_entries, pinning_entries, shutting_entries};
ghost use Rattle.lb_desk_seat.specs.Seats.{Adds, KeepsCounts, entries_at};

use crate::Seat;
use crate::replies::{asked, filed, pinning};
use lb_desk_model::{Event, Request, SetPin};
use lb_desk_ports::{Asked, Filed, Opening, Pinning, Port, Refused, Shut};
use lb_desk_shared::{Naming, Slot};
use lb_types::ServerId;
use std::hash::BuildHasher;
use std::sync::Wait;

impl<S: BuildHasher, B: Naming> Seat<'_, S, B> {
    // Two holds of the desk: the first drops the pins that went, which the request's client needn't wait for in the second.
    fn serve<R: Wait>(&mut self, rt: &R, request: Request) -> Result<Asked, Refused>
        ensures adds { AddsAsk request (entries_at self.old) (entries_at self.new) result }
        ensures counts { KeepsCounts self.old self.new }
    {
        self.tell(rt, Event::Expire(request.moment))?;
        let reply = self.tell(rt, Event::Serve(request))?;
        Ok(asked(&reply))
    }

    fn pin<R: Wait>(&mut self, rt: &R, pin: SetPin) -> Result<Pinning, Refused>
        ensures { Adds self.old self.new (pinning_entries pin result) }
    {
        let reply = self.tell(rt, Event::Set(pin))?;
        Ok(pinning(&reply))
    }

    #[tactic(auto, using(crate::proofs::Asking::shutting_adds))]
    fn give_back<R: Wait>(&mut self, rt: &R, slot: Slot) -> Result<Shut, Refused>
        ensures { Adds self.old self.new (shutting_entries slot.server result) }
    {
        if slot.desk() != self.desk.number() {
            // No program of ours gives a slot to another desk's seat. It would end a connection there that was never opened.
            slot.give_up();
            return Err(Refused::Memory);
        }
        self.desk.shut(rt, &mut self.pass, slot)
    }

    fn file<R: Wait>(&mut self, rt: &R, server: ServerId, ok: bool) -> Result<Filed, Refused>
        ensures { Adds self.old self.new (filing_entries server ok result) }
    {
        let reply = self.tell(rt, Event::Check(server, ok))?;
        Ok(filed(&reply))
    }
}

impl<R: Wait, S: BuildHasher, B: Naming> Port<R> for Seat<'_, S, B> {
    type Slot = Slot;

    ghost entries = { λ seat. entries_at seat };

    ghost refusals = { λ seat. seat.refusals };

    ghost server_of = { λ slot. slot.server };

    fn ask(&mut self, rt: &R, request: Request) -> Result<Asked, Refused> {
        let answer = self.serve(rt, request);
        self.count(&answer);
        answer
    }

    fn set(&mut self, rt: &R, pin: SetPin) -> Result<Pinning, Refused> {
        let answer = self.pin(rt, pin);
        self.count(&answer);
        answer
    }

    #[tactic(auto, using(crate::proofs::Asking::opening_adds))]
    fn open(&mut self, rt: &R, server: ServerId) -> Result<Opening<Slot>, Refused> {
        let answer = self.desk.open(rt, &mut self.pass, server);
        self.count(&answer);
        answer
    }

    fn shut(&mut self, rt: &R, slot: Slot) -> Result<Shut, Refused> {
        let answer = self.give_back(rt, slot);
        self.count(&answer);
        answer
    }

    fn check(&mut self, rt: &R, server: ServerId, ok: bool) -> Result<Filed, Refused> {
        let answer = self.file(rt, server, ok);
        self.count(&answer);
        answer
    }
}

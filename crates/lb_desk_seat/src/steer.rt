ghost use Rattle.std.specs.Prelude.{◌≡◌, false, IfOk};
ghost use Rattle.lb_desk_seat.specs.Replies.{Answers};
ghost use Rattle.lb_desk_seat.specs.Seats.{KeepsCounts, entries_at};
ghost use Rattle.lb_desk_shared.specs.Calls.{is_of_a_connection};
ghost use Rattle.lb_desk_steer.specs.Steering.{AddsAt, KeepsSights};

use crate::Seat;
use lb_desk_model::{Event, Reply, SetPin};
use lb_desk_ports::Refused;
use lb_desk_shared::Naming;
use lb_desk_steer::{JournalCopy, Steer};
use lb_types::Moment;
use pin_set::{PinId, TablePin};
use server_state::Change;
use std::alloc::{AllocError, Global};
use std::hash::BuildHasher;
use std::sync::Wait;
use std::time::Clock;

impl<S: BuildHasher, B: Naming> Seat<'_, S, B> {
    // Two holds of the desk, as for a request.
    pub(crate) fn tell_at<R: Wait>(
        &mut self,
        rt: &R,
        moment: Moment,
        event: Event,
    ) -> Result<Reply, Refused>
        requires { is_of_a_connection event ≡ false }
        ensures adds { AddsAt moment event (entries_at self.old) (entries_at self.new) result }
        ensures fits { IfOk result (λ reply. Answers event reply) }
        ensures counts { KeepsCounts self.old self.new }
        ensures keeper { self.new.pass.keeper ≡ self.old.pass.keeper }
        ensures sights { KeepsSights self.old.pass.sights self.new.pass.sights }
    {
        self.tell(rt, Event::Expire(moment))?;
        let reply = self.tell(rt, event)?;
        Ok(reply)
    }
}

impl<R: Wait + Clock, S: BuildHasher, B: Naming> Steer<R> for Seat<'_, S, B> {
    ghost sights = { λ seat. seat.pass.sights };

    fn command(&mut self, rt: &R, change: Change) -> Result<Reply, Refused> {
        let answer = self.tell(rt, Event::Command(change));
        self.count(&answer);
        answer
    }

    fn set_pin(&mut self, rt: &R, pin: SetPin) -> Result<Reply, Refused> {
        let answer = self.tell_at(rt, pin.moment, Event::Set(pin));
        self.count(&answer);
        answer
    }

    fn clear_pin(&mut self, rt: &R, name: PinId, moment: Moment) -> Result<Reply, Refused> {
        let answer = self.tell_at(rt, moment, Event::Clear(name));
        self.count(&answer);
        answer
    }

    fn rows(&mut self, rt: &R, alloc: Global) -> Result<Vec<TablePin>, AllocError> {
        let pins = self.desk.rows(rt, &mut self.pass, alloc)?;
        Ok(pins)
    }

    fn journal(&mut self, rt: &R, alloc: Global) -> Result<JournalCopy, AllocError> {
        let copy = self.desk.entries(rt, &mut self.pass, alloc)?;
        Ok(JournalCopy {
            first: copy.first,
            entries: copy.entries,
        })
    }
}

ghost use Rattle.std.specs.Prelude.{◌≡◌};
ghost use Rattle.lb_desk_model.specs.Backends.{opened_backend};
ghost use Rattle.lb_desk_ports.specs.Movers.{IsPlanned, installing_entries, snapshot_entries};
ghost use Rattle.lb_desk_seat.specs.Seats.{Adds, entries_at};

use crate::Seat;
use crate::replies::installing;
use dual_cert_plan::{Plan, Sheet};
use lb_desk_model::{Event, Reply, Shared};
use lb_desk_ports::{Installing, Mover, Refused};
use lb_desk_shared::Naming;
use pin_set::Score;
use std::hash::BuildHasher;
use std::sync::Wait;

impl<S: BuildHasher, B: Naming> Seat<'_, S, B> {
    fn take_sheet<R: Wait>(&mut self, rt: &R) -> Result<Shared<Sheet>, Refused>
        ensures adds { Adds self.old self.new (snapshot_entries result) }
        ensures keeper { self.new.pass.keeper ≡ self.old.pass.keeper }
    {
        let Reply::Sheet(sheet) = self.tell(rt, Event::Snapshot)? else {
            unreachable!();
        };
        Ok(sheet)
    }

    /// Takes a plan for a sheet that this seat was given to the desk, which therefore never refuses it as Bad.
    fn hand_in<R: Wait>(&mut self, rt: &R, plan: Plan) -> Result<Installing, Refused>
        requires planned { IsPlanned (entries_at self.old) plan }
        ensures adds { Adds self.old self.new (installing_entries plan result) }
        ensures keeper { self.new.pass.keeper ≡ self.old.pass.keeper }
    {
        let plan = Shared::new(self.alloc, plan)?;
        let reply = self.tell(rt, Event::Install(plan))?;
        Ok(installing(&reply))
    }
}

impl<R: Wait, S: BuildHasher, B: Naming> Mover<R> for Seat<'_, S, B> {
    ghost backend = { λ seat. opened_backend seat.pass.keeper (B.opening seat.pass.keeper) (B.journal_size seat.pass.keeper) };

    ghost entries = { λ seat. entries_at seat };

    ghost refusals = { λ seat. seat.refusals };

    ghost planned_now = { λ seat. seat.planned_now };

    fn snapshot(&mut self, rt: &R) -> Result<Shared<Sheet>, Refused> {
        let answer = self.take_sheet(rt);
        self.count(&answer);
        answer
    }

    fn install(&mut self, rt: &R, plan: Plan) -> Result<Installing, Refused> {
        let answer = self.hand_in(rt, plan);
        self.count(&answer);
        answer
    }

    #[tactic(auto, using(crate::proofs::Asking::plan_adds))]
    fn plan_now(&mut self, rt: &R) -> Result<Score, Refused> {
        self.planned_now = self.planned_now.saturating_add(1);
        let answer = self.desk.plan_now(rt, &mut self.pass);
        self.count(&answer);
        answer
    }
}

ghost use Rattle.std.specs.Prelude.{◌≡◌, ◌++◌, ℕ, List};
ghost use Rattle.lb_desk_model.specs.Backends.{OpenedBackend};
ghost use Rattle.lb_desk_model.specs.declared.entry.Entry.{Entry};
ghost use Rattle.lb_desk_ports.specs.Calls.{after_call, counted};
ghost use Rattle.lb_desk_ports.specs.Movers.{snapshot_entries, installing_entries, IsPlanned, PlansNow};

use crate::{Installing, Refused};
use dual_cert_plan::{Plan, Sheet};
use lb_desk_model::Shared;
use pin_set::Score;

/// A backend, as a planner sees it. A call that is refused when out of memory or as `Worn` makes no event.
pub trait Mover<R> {
    /// The backend, as it opened. No call changes it.
    ghost backend: { Self → OpenedBackend };

    /// The events that were made through this mover, each with its reply, in their order. They are in the backend's journal,
    /// those of others between them.
    ghost entries: { Self → List Entry };

    /// How many calls were refused. A count that has reached 2^64 - 1 stays there.
    ghost refusals: { Self → ℕ };

    /// How often it was asked to plan while everyone else waits, refused calls included. A count that has reached 2^64 - 1 stays
    /// there.
    ghost planned_now: { Self → ℕ };

    /// The sheet of the pins as they stand now. The backend's journal shares it.
    fn snapshot(&mut self, rt: &R) -> Result<Shared<Sheet>, Refused>
        ensures entries { entries self.new ≡ entries self.old ++ snapshot_entries result }
        ensures refusals { refusals self.new ≡ after_call result (refusals self.old) }
        ensures planned_now { planned_now self.new ≡ planned_now self.old }
        ensures backend { backend self.new ≡ backend self.old };

    /// Makes the plan's moves, if the pins still stand as its sheet says. It takes plans for sheets that this mover gave, and no
    /// others: the check refuses none of these, however late they come and whatever others do in between.
    fn install(&mut self, rt: &R, plan: Plan) -> Result<Installing, Refused>
        requires planned { IsPlanned (entries self.old) plan }
        ensures entries { entries self.new ≡ entries self.old ++ installing_entries plan result }
        ensures refusals { refusals self.new ≡ after_call result (refusals self.old) }
        ensures planned_now { planned_now self.new ≡ planned_now self.old }
        ensures backend { backend self.new ≡ backend self.old };

    /// Takes a sheet, plans, and makes the moves while everyone else waits, so that no plan can go stale.
    fn plan_now(&mut self, rt: &R) -> Result<Score, Refused>
        ensures entries { PlansNow (entries self.old) (entries self.new) result }
        ensures refusals { refusals self.new ≡ after_call result (refusals self.old) }
        ensures planned_now { planned_now self.new ≡ counted (planned_now self.old) }
        ensures backend { backend self.new ≡ backend self.old };
}

ghost use Rattle.std.specs.Prelude.{◌≡◌};
ghost use Rattle.lb_desk_evacuate.specs.Evacuations.{AddsTry, CountsRefusal, Evacuates};

use flow_planner::plan;
use lb_desk_ports::{Gate, Installing, Mover, Point, Refused};
use pin_set::Score;
use std::alloc::Global;

/// How an evacuation ended.
#[derive(Clone, Copy, Debug, PartialEq, Eq)]
pub enum Evacuation {
    /// The moves of a plan were made, and this is their score.
    Done(Score),
    /// No try was allowed.
    AllStale,
}

/// Makes plans and hands them in, at most `tries` of them, until the moves of one are made. While it plans, everyone else goes on, and
/// may change what the plan was made for. Only try number `tries` plans while all others wait, so that its plan can't go stale. A
/// gate is passed between planning and each install, but not in that try. With no try allowed nothing is asked.
///
/// Each try costs a whole planning. It is refused as its mover is, and when out of memory for a plan; what was asked so far stands.
pub fn evacuate<R, M: Mover<R>, G: Gate<R>>(
    rt: &R,
    alloc: Global,
    mover: &mut M,
    gate: &G,
    tries: u32,
) -> Result<Evacuation, Refused>
    ensures evacuates { Evacuates tries result (M.entries mover.old) (M.entries mover.new)
        (M.planned_now mover.old) (M.planned_now mover.new) }
    ensures refusals { CountsRefusal result (M.refusals mover.old) (M.refusals mover.new) }
    ensures backend { M.backend mover.new ≡ M.backend mover.old }
{
    for _ in 1..tries {
        let answer = match try_once(rt, alloc, mover, gate) {
            Ok(answer) => answer,
            Err(refused) => return Err(refused),
        };
        if let Installing::Installed(score) = answer {
            return Ok(Evacuation::Done(score));
        }
    }
    if tries == 0 {
        return Ok(Evacuation::AllStale);
    }
    match mover.plan_now(rt) {
        Ok(score) => Ok(Evacuation::Done(score)),
        Err(refused) => Err(refused),
    }
}

/// One try, in which others may get in between.
fn try_once<R, M: Mover<R>, G: Gate<R>>(
    rt: &R,
    alloc: Global,
    mover: &mut M,
    gate: &G,
) -> Result<Installing, Refused>
    ensures entries { AddsTry result (M.entries mover.old) (M.entries mover.new) }
    ensures planned_now { M.planned_now mover.new ≡ M.planned_now mover.old }
    ensures refusals { CountsRefusal result (M.refusals mover.old) (M.refusals mover.new) }
    ensures backend { M.backend mover.new ≡ M.backend mover.old }
{
    let sheet = mover.snapshot(rt)?;
    let plan = plan(alloc, &*sheet)?.into_plan();
    gate.at(rt, Point::Planned);
    mover.install(rt, plan)
}

ghost use Rattle.std.specs.Prelude.{◌≡◌, ◌<◌, ◌^◌, ◌≤◌, IfOk, OnErr};
ghost use Rattle.lb_desk_core.specs.Core.{IsReached};
ghost use Rattle.lb_desk_step.specs.Planning.{Plans};

use dual_cert_plan::{Plan, Sheet};
use flow_planner::plan;
use lb_desk_core::Core;
use lb_desk_model::{Reply, Shared};
use pin_set::Score;
use std::alloc::{AllocError, Global};
use std::hash::BuildHasher;

/// A plan that was installed, and the sheet that it was made for.
#[derive(Drop)]
pub(crate) struct Planned {
    pub(crate) sheet: Shared<Sheet>,
    pub(crate) plan: Shared<Plan>,
    pub(crate) score: Score,
    /// One owner more of each, so that entries can be handed out.
    pub(crate) copies: (Shared<Sheet>, Shared<Plan>),
}

/// Makes a plan for the core's sheet, and installs it. Where memory is wanting, nothing has changed.
///
/// It costs a whole planning.
pub(crate) fn plan_for<S: BuildHasher>(
    core: &mut Core<S>,
    alloc: Global,
) -> Result<Planned, AllocError>
    requires version { core.old.shown.version < 2 ^ 63 }
    requires reached { IsReached core.old.shown }
    ensures plans { IfOk result
        (λ p. Plans core.old.shown p.sheet p.plan p.score core.new.shown) }
    ensures copies { IfOk result (λ p. (p.copies.0 ≡ p.sheet) × (p.copies.1 ≡ p.plan)) }
    ensures err { OnErr result (core.new ≡ core.old) }

    // What no step shows.
    ensures connections { core.new.shown.connections ≡ core.old.shown.connections }
    ensures uses { core.new.uses ≡ core.old.uses }
{
    let Reply::Sheet(sheet) = core.snapshot(alloc)? else {
        unreachable!();
    };
    let plan = Shared::new(alloc, plan(alloc, &*sheet)?.into_plan())?;
    let copies = (sheet.clone()?, plan.clone()?);
    let Reply::Installed(score) = core.install(alloc, &*plan)? else {
        unreachable!();
    };
    Ok(Planned {
        sheet,
        plan,
        score,
        copies,
    })
}

ghost use Rattle.std.specs.Prelude.{◌≡◌};
ghost use Rattle.lb_desk_planner.specs.Told.{PlansAsTold, ledger};

use crate::Notices;
use lb_desk_evacuate::evacuate;
use lb_desk_ports::{Gate, Mover};
use std::alloc::Global;
use std::sync::Wait;

/// For each notice makes one evacuation, with at most `tries` plans, and returns once all bells are gone.
///
/// An evacuation that is refused is over: what it asked so far stands, the next notice begins another, and the mover counts the call
/// that was refused. Whatever was changed before a bell was rung is seen by an evacuation after it.
pub fn plan_when_told<R: Wait, M: Mover<R>, G: Gate<R>>(
    rt: &R,
    alloc: Global,
    mover: &mut M,
    gate: &G,
    tries: u32,
    notices: &mut Notices,
)
    ensures { PlansAsTold tries
        (ledger notices.old (M.entries mover.old) (M.planned_now mover.old) (M.refusals mover.old))
        (ledger notices.new (M.entries mover.new) (M.planned_now mover.new) (M.refusals mover.new)) }
{
    for _ in rt.forever() {
        if !notices.hear(rt) {
            return;
        }
        let _ = evacuate(rt, alloc, mover, gate, tries);
    }
}

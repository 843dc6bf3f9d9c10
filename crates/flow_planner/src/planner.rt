ghost use Rattle.std.specs.Prelude.{◌≡◌, ◌+◌, ◌*◌, ◌≤◌, length, IfOk, sum_by};
ghost use Rattle.flow_planner_law.specs.Accepted.{IsAccepted, network_of};

use crate::Planned;
use crate::sheet_parts::{capacities_of, unplaced_cost};
use crate::solving::solve;
use crate::written::written;
use dual_cert_plan::Sheet;
use flow_planner_net::Network;
use flow_planner_repair::{Arcs, Label};
use std::alloc::{AllocError, Global};

/// A best plan for the sheet, with prices that show that it is best. The only failure is out of memory.
///
/// With `S` servers and `G` groups it asks for `4 * (S + 1) * G + 17 * (S + 1)^2 + 48 * (S + 1)` bytes before it begins, and for the
/// plan's rows and servers at the end.
pub fn plan(alloc: Global, sheet: &Sheet) -> Result<Planned, AllocError>
    // A checker accepts the plan for the sheet.
    ensures accepted { IfOk result (λ planned. IsAccepted sheet.now planned.plan) }
    ensures version { IfOk result (λ planned. planned.plan.version ≡ sheet.now.version) }

    // How much work it was.
    ensures pushes { IfOk result (λ planned. planned.pushes ≤ sum_by (λ g. g.count) sheet.now.groups) }
    ensures looks { IfOk result (λ planned. planned.looks ≤ planned.pushes
        * ((length sheet.now.servers + 2) * (length sheet.now.servers + 2) * (length sheet.now.groups + 1))) }
{
    let groups = sheet.groups();
    let capacities = capacities_of(alloc, sheet.servers())?;
    let network = Network::new(unplaced_cost(groups), groups, &capacities);
    planned(alloc, sheet, &network)
}

/// A best plan for the sheet that has this network.
fn planned(alloc: Global, sheet: &Sheet, network: &Network) -> Result<Planned, AllocError>
    requires { network.now ≡ network_of sheet.now }
    ensures accepted { IfOk result (λ planned. IsAccepted sheet.now planned.plan) }
    ensures version { IfOk result (λ planned. planned.plan.version ≡ sheet.now.version) }
    ensures pushes { IfOk result (λ planned. planned.pushes ≤ sum_by (λ g. g.count) sheet.now.groups) }
    ensures looks { IfOk result (λ planned. planned.looks ≤ planned.pushes
        * ((length sheet.now.servers + 2) * (length sheet.now.servers + 2) * (length sheet.now.groups + 1))) }
{
    let options = network.options();
    let mut counts = vec![in alloc; 0; options * network.size()]?;
    let mut prices = vec![in alloc; 0; options]?;
    let mut loads = vec![in alloc; 0; options]?;
    let mut labels = vec![in alloc; NO_LABEL; options]?;
    let mut arcs = Arcs::new(alloc, options)?;
    let pushes = solve(
        network,
        sheet.groups(),
        &mut counts,
        &mut prices,
        &mut loads,
        &mut arcs,
        &mut labels,
    );
    let plan = written(alloc, sheet, network, &counts, &prices)?;
    Ok(Planned::new(plan, pushes, arcs.looks()))
}

/// What stands for an option that no search has seen.
const NO_LABEL: Label = Label {
    dist: 0,
    source: 0,
    via: 0,
    rank: 0,
};

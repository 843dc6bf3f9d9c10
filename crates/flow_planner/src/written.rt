ghost use Rattle.std.specs.Prelude.{◌≡◌, ℕ, ◌*◌, length, IfOk};
ghost use Rattle.flow_planner_net.specs.Networks.{options, size};
ghost use Rattle.flow_planner_net.specs.States.{used_of, at};
ghost use Rattle.flow_planner_law.specs.Accepted.{IsRepaired, IsAccepted, network_of};

use crate::rows::write_rows;
use crate::sheet_parts::priced_servers;
use dual_cert_plan::{Plan, Sheet};
use flow_planner_net::Network;
use std::alloc::{AllocError, Global};

/// The plan for the sheet that says where the pins of a repaired state stand. Memory for its rows and servers.
pub(crate) fn written(
    alloc: Global,
    sheet: &Sheet,
    network: &Network,
    counts: &[u32],
    prices: &[u64],
) -> Result<Plan, AllocError>
    requires network { network.now ≡ network_of sheet.now }
    requires table { length counts.now ≡ options network.now * size network.now }
    requires prices_len { length prices.now ≡ options network.now }
    requires repaired { (load : ℕ → ℕ) × IsRepaired network.now (used_of (size network.now) counts.now) (at prices.now) load }
    ensures accepted { IfOk result (λ plan. IsAccepted sheet.now plan) }
    ensures version { IfOk result (λ plan. plan.version ≡ sheet.now.version) }
{
    let rows = write_rows(alloc, network, sheet.groups(), counts)?;
    let servers = priced_servers(alloc, sheet.servers(), prices)?;
    Ok(Plan::new(sheet.version(), servers, rows))
}

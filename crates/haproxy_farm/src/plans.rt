ghost use Rattle.std.specs.Prelude.{◌≡◌, ◌↔◌, IfOk, IfSome, IsSome};
ghost use Rattle.dual_cert_plan.specs.Sheets.{IsSheet};
ghost use Rattle.pin_set.specs.Assignments.{IsBest};
ghost use Rattle.pin_set.specs.Rows.{Agrees};
ghost use Rattle.pin_set.specs.Views.{kinds_of, capacities};
ghost use Rattle.cert_check_law.specs.Sheets.{StandsFor};
ghost use Rattle.pin_groups_spread.specs.Accepted.{IsAcceptedFor};
ghost use Rattle.haproxy_farm.specs.Farms.{CanBeFarm, farm_of};

use crate::farm::farm_view;
use dual_cert_plan::{Plan, Sheet};
use lb_types::{Place, ServerSet};
use pin_groups::group;
use pin_groups_spread::spread_best;
use pin_set::ViewServer;
use std::alloc::{AllocError, Global};

/// The sheet of a backend with these servers and with an entry at each of these places, of version 0. None exactly where
/// `farm_view` is none. The only error is out of memory.
///
/// Costs a `farm_view` and a `group`, with their memory.
pub fn farm_sheet(
    alloc: Global,
    usable: ServerSet,
    servers: &[ViewServer],
    places: &[Place],
) -> Result<Option<Sheet>, AllocError>
    ensures some { IfOk result (λ found. IsSome found ↔ CanBeFarm usable servers.now places.now) }
    ensures version { IfOk result (λ found. IfSome found (λ sheet. sheet.version ≡ 0)) }
    ensures lawful { IfOk result (λ found. IfSome found (λ sheet. IsSheet sheet)) }
    ensures exact { IfOk result (λ found. IfSome found (λ sheet.
        StandsFor sheet (farm_of usable servers.now places.now))) }
{
    let Some(view) = farm_view(alloc, usable, servers, places)? else {
        return Ok(None);
    };
    let sheet = group(alloc, &view, 0)?;
    Ok(Some(sheet))
}

/// Where the entries go by a plan: the i-th entry goes to the i-th of these places. As many go to each place as the plan says,
/// and no assignment is better.
///
/// None exactly where `farm_view` is none, or where the check refuses the plan for the sheet of these entries. The only error
/// is out of memory.
///
/// Costs a `farm_view` and a `spread_best`, with their memory.
pub fn places_by(
    alloc: Global,
    usable: ServerSet,
    servers: &[ViewServer],
    places: &[Place],
    plan: &Plan,
) -> Result<Option<Vec<Place>>, AllocError>
    ensures some { IfOk result (λ found. IsSome found
        ↔ (CanBeFarm usable servers.now places.now × IsAcceptedFor (farm_of usable servers.now places.now) plan.now)) }
    ensures agrees { IfOk result (λ found. IfSome found (λ moved.
        Agrees plan.now.rows (kinds_of (farm_of usable servers.now places.now)) moved.items)) }
    ensures best { IfOk result (λ found. IfSome found (λ moved.
        IsBest (capacities (farm_of usable servers.now places.now)) (kinds_of (farm_of usable servers.now places.now))
        moved.items)) }
{
    let Some(view) = farm_view(alloc, usable, servers, places)? else {
        return Ok(None);
    };
    spread_best(alloc, &view, plan)
}

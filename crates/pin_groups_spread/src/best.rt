ghost use Rattle.std.specs.Prelude.{◌≡◌, ◌↔◌, IfOk, IfSome, IsSome};
ghost use Rattle.pin_set.specs.Assignments.{IsBest};
ghost use Rattle.pin_set.specs.Rows.{Agrees};
ghost use Rattle.pin_set.specs.Views.{kinds_of, capacities};
ghost use Rattle.pin_groups_spread.specs.Accepted.{IsAcceptedFor};

use cert_check::check;
use dual_cert_plan::Plan;
use lb_types::Place;
use pin_groups::{group, spread};
use pin_set::View;
use std::alloc::{AllocError, Global};

/// Places for the pins of a view by a plan, exactly where the check accepts the plan for the view's sheet. The i-th pin
/// goes to the i-th place, as many of each kind to each place as the plan says, and no assignment is better.
///
/// Costs a `group`, a `check` and a `spread`, with their memory.
pub fn spread_best(
    alloc: Global,
    view: &View,
    plan: &Plan,
) -> Result<Option<Vec<Place>>, AllocError>
    ensures some { IfOk result (λ found. IsSome found ↔ IsAcceptedFor view.now plan.now) }
    ensures agrees { IfOk result (λ found. IfSome found (λ places.
        Agrees plan.now.rows (kinds_of view.now) places.items)) }
    ensures best { IfOk result (λ found. IfSome found (λ places.
        IsBest (capacities view.now) (kinds_of view.now) places.items)) }
{
    let sheet = group(alloc, view, 0)?;
    if check(&sheet, plan).is_err() {
        return Ok(None);
    }
    let places = spread(alloc, view, plan)?;
    Ok(Some(places))
}

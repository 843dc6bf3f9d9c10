ghost use Rattle.std.specs.Prelude.{◌≡◌, ◌↔◌, IsOk, IfOk, OnOk, IsErrOf};
ghost use Rattle.pin_set.specs.Rows.{rows_score, AgreeingAreBest};
ghost use Rattle.cert_check_law.specs.Sheets.{sheet_room, AreBestForViews};
ghost use Rattle.cert_check.specs.Verdict.{verdict, IsMadeFor, IsPermitted, IsWithinCapacity, IsShown};

use crate::CheckFault;
use crate::bound::is_shown;
use crate::lawful::{is_permitted, is_within_capacity};
use crate::own_sheet::is_made_for;
use crate::score::score_of;
use dual_cert_plan::{Plan, Sheet};
use pin_set::Score;

/// The verdict on the plan for the sheet: the plan's score, or the first fault that holds. Versions aren't compared.
///
/// Allocates nothing. Costs a look at each server for each row, and a few walks over the rows.
pub fn check(sheet: &Sheet, plan: &Plan) -> Result<Score, CheckFault>
    ensures exact { result ≡ verdict sheet.now plan.now }

    // A score is given only where, for every view that the sheet stands for, each assignment that agrees with the plan
    // is best and has this score.
    ensures best { OnOk result (AreBestForViews sheet.now plan.now.rows) }

    // So is, at the sheet's capacities, each assignment of the sheet's pins that agrees with the plan, also where the sheet
    // stands for no view.
    ensures sheet { OnOk result (AgreeingAreBest (sheet_room sheet.now) plan.now.rows) }

    // The score, and each fault, with what it says of the plan.
    ensures score { IfOk result (λ score. score ≡ rows_score plan.now.rows) }
    ensures ok { IsOk result ↔ (IsMadeFor sheet.now plan.now × IsPermitted plan.now
        × IsWithinCapacity sheet.now plan.now × IsShown sheet.now plan.now) }
    ensures rows_differ { IsErrOf result CheckFault.RowsDiffer ↔ ¬ IsMadeFor sheet.now plan.now }
    ensures not_permitted { IsErrOf result CheckFault.NotPermitted
        ↔ (IsMadeFor sheet.now plan.now × ¬ IsPermitted plan.now) }
    ensures over_capacity { IsErrOf result CheckFault.OverCapacity
        ↔ (IsMadeFor sheet.now plan.now × IsPermitted plan.now × ¬ IsWithinCapacity sheet.now plan.now) }
    ensures not_shown { IsErrOf result CheckFault.NotShown
        ↔ (IsMadeFor sheet.now plan.now × IsPermitted plan.now
        × IsWithinCapacity sheet.now plan.now × ¬ IsShown sheet.now plan.now) }
{
    if !is_made_for(sheet, plan) {
        return Err(CheckFault::RowsDiffer);
    }
    let (servers, rows) = (plan.servers(), plan.rows());
    if !is_permitted(rows) {
        return Err(CheckFault::NotPermitted);
    }
    if !is_within_capacity(servers, rows) {
        return Err(CheckFault::OverCapacity);
    }
    if !is_shown(servers, rows) {
        return Err(CheckFault::NotShown);
    }
    Ok(score_of(rows))
}

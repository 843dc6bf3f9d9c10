ghost use Rattle.std.specs.Prelude.{◌≡◌, ◌↔◌, ℕ, ◌^◌, ◌≤◌, IfOk, OnErr};
ghost use Rattle.pin_set.specs.Rows.{rows_load};
ghost use Rattle.pin_set.specs.Views.{IsView};
ghost use Rattle.lb_desk_model.specs.Installs.{JudgesAt};
ghost use Rattle.lb_desk_model.specs.Serves.{load};
ghost use Rattle.lb_desk_model.specs.States.{SameView};
ghost use Rattle.pin_install.specs.Installed.{table_view, InstallsIn};

use cert_check::{CheckFault, check};
use dual_cert_plan::Plan;
use lb_types::ServerSet;
use pin_groups::sheet_of;
use pin_moves::moves_of;
use pin_set::{Score, ViewServer};
use pin_table::Table;
use std::alloc::{AllocError, Global};
use std::hash::BuildHasher;

/// Checks the plan for the table's pins at these servers, of which some are usable, and sends each pin where the plan says. Gives the
/// plan's score, or the first fault that the check finds. Versions are not compared, and the table's version is not increased.
///
/// Fails where there is no memory. Nothing has changed then, nor where the plan is refused. It allocates memory for the counts, the
/// sheet, the moves and the counts after them, and none for any pin. It costs one pass over the pins, and besides what the counts and
/// the plan's rows cost. In the pass each pin takes a look at two moves, or a binary search among them where its kind is met for the
/// first time.
pub fn install<S: BuildHasher>(
    alloc: Global,
    table: &mut Table<S>,
    usable: ServerSet,
    servers: &[ViewServer],
    plan: &Plan,
) -> Result<Result<Score, CheckFault>, AllocError>
    requires version { table.old.version ≤ 2 ^ 63 }
    requires lawful { IsView (table_view usable servers.now table.old) }
    ensures judged { IfOk result (λ verdict. JudgesAt (table_view usable servers.now table.old) table.old.version plan.now verdict) }
    ensures installed { IfOk result (λ verdict. IfOk verdict (λ score.
        InstallsIn usable servers.now plan.now score table.old table.new)) }
    // The view changes exactly where a pin changes its place.
    ensures same_view { IfOk result (λ verdict. IfOk verdict (λ score. (score.moved ≡ 0)
        ↔ SameView (table_view usable servers.now table.old) (table_view usable servers.now table.new))) }
    ensures loads { IfOk result (λ verdict. IfOk verdict (λ score. (server : ℕ)
        → load table.new.pins server ≡ rows_load plan.now.rows server)) }
    ensures refused { IfOk result (λ verdict. OnErr verdict (table.new ≡ table.old)) }
    ensures err { OnErr result (table.new ≡ table.old) }
{
    let counts = table.pin_counts(alloc)?;
    let sheet = sheet_of(alloc, &counts, usable, servers, table.version())?;
    let score = match check(&sheet, plan) {
        Ok(score) => score,
        Err(fault) => return Ok(Err(fault)),
    };
    let moves = moves_of(alloc, &counts, usable, plan)?;
    table.set_places(alloc, moves)?;
    Ok(Ok(score))
}

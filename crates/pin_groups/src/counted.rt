ghost use Rattle.std.specs.Prelude.{◌≡◌, ◌^◌, ◌≤◌, IfOk, sum_by};
ghost use Rattle.lb_types.specs.declared.limits.TheConstants.{MAX_PINS};
ghost use Rattle.dual_cert_plan.specs.Sheets.{SheetParts, IsSheet};
ghost use Rattle.pin_set.specs.Views.{ViewParts};
ghost use Rattle.cert_check_law.specs.Sheets.{StandsFor};
ghost use Rattle.pin_groups.specs.Counts.{AreGroupsOfCounts, HasCounts, AreOfSomeView, OneSheetForAView, counted_kind};
ghost use Rattle.pin_groups.specs.Rising.{AreRising};

use crate::listed::listed_servers;
use crate::rising::put;
use dual_cert_plan::Sheet;
use lb_types::ServerSet;
use lb_types_pins::{Group, PinKind};
use pin_set::{PinCount, ViewServer, permitted};
use std::alloc::{AllocError, Global};

/// The sheet of a view that is known by its counts: counts whose permitted sets are equal make one group.
///
/// Each count is looked up among the groups so far, by binary search, and a new group moves those of later kinds. Memory for as
/// many groups as there are kinds.
pub fn sheet_of(
    alloc: Global,
    counts: &[PinCount],
    usable: ServerSet,
    servers: &[ViewServer],
    version: u64,
) -> Result<Sheet, AllocError>
    requires version { version ≤ 2 ^ 63 }
    requires counts { AreOfSomeView usable servers.now counts.now }
    ensures version { IfOk result (λ sheet. sheet.version ≡ version) }
    ensures lawful { IfOk result (λ sheet. IsSheet sheet) }
    ensures exact { IfOk result (λ sheet. (view : ViewParts) → HasCounts usable servers.now counts.now view
        → StandsFor sheet view) }
    ensures groups { IfOk result (λ sheet. AreGroupsOfCounts usable sheet.groups counts.now) }
{
    let listed = listed_servers(alloc, usable, servers)?;
    let groups = groups_counted(alloc, usable, counts)?;
    Ok(Sheet::new(version, listed, groups))
}

fn groups_counted(
    alloc: Global,
    usable: ServerSet,
    counts: &[PinCount],
) -> Result<Vec<Group>, AllocError>
    requires { sum_by (λ c. c.count) counts.now ≤ MAX_PINS }
    ensures rising { IfOk result (λ groups. AreRising groups.items) }
    ensures counts { IfOk result (λ groups. AreGroupsOfCounts usable groups.items counts.now) }
{
    let mut groups = Vec::new(alloc);
    for counted in counts {
        if counted.count > 0 {
            put(&mut groups, group_counted(usable, counted))?;
        }
    }
    Ok(groups)
}

fn group_counted(usable: ServerSet, counted: &PinCount) -> Group
    requires { counted.now.count ≤ MAX_PINS }
    ensures kind { result.kind ≡ counted_kind usable counted.now }
    ensures count { result.count ≡ counted.now.count }
{
    let kind = PinKind {
        place: counted.place,
        permitted: permitted(counted.want, usable),
        cost: counted.cost,
    };
    Group {
        kind,
        count: counted.count as u32,
    }
}

/// Two sheets of one version that stand for one view are one sheet, so `group` and `sheet_of` give the same.
pub fn one_sheet_for_a_view()
    ensures { OneSheetForAView }
{}

ghost use Rattle.std.specs.Prelude.{◌≡◌, ◌^◌, ◌≤◌, length, map, IfOk};
ghost use Rattle.lb_types.specs.declared.limits.TheConstants.{MAX_PINS};
ghost use Rattle.dual_cert_plan.specs.Sheets.{IsSheet};
ghost use Rattle.pin_set.specs.Rows.{AreGroupsOf};
ghost use Rattle.pin_set.specs.Views.{kind_of};
ghost use Rattle.cert_check_law.specs.Sheets.{StandsFor};
ghost use Rattle.pin_groups.specs.Rising.{AreRising};

use crate::listed::listed_servers;
use crate::rising::put;
use dual_cert_plan::Sheet;
use lb_types::ServerSet;
use lb_types_pins::{Group, PinKind};
use pin_set::{Pin, View, permitted};
use std::alloc::{AllocError, Global};

/// The sheet of a view: its servers, and how many pins it has of each kind. `version` is the table's, at most 2^63.
///
/// Each pin is looked up among the groups so far, by binary search, and a new group moves those of later kinds. Memory for as
/// many groups as there are kinds.
pub fn group(alloc: Global, view: &View, version: u64) -> Result<Sheet, AllocError>
    requires { version ≤ 2 ^ 63 }
    ensures version { IfOk result (λ sheet. sheet.version ≡ version) }
    ensures lawful { IfOk result (λ sheet. IsSheet sheet) }
    ensures exact { IfOk result (λ sheet. StandsFor sheet view.now) }
{
    let servers = listed_servers(alloc, view.usable(), view.servers())?;
    let groups = groups_of(alloc, view.usable(), view.pins())?;
    Ok(Sheet::new(version, servers, groups))
}

fn groups_of(alloc: Global, usable: ServerSet, pins: &[Pin]) -> Result<Vec<Group>, AllocError>
    requires { length pins.now ≤ MAX_PINS }
    ensures rising { IfOk result (λ groups. AreRising groups.items) }
    ensures counts { IfOk result (λ groups. AreGroupsOf groups.items (map (kind_of usable) pins.now)) }
{
    let mut groups = Vec::new(alloc);
    for pin in pins {
        let one = Group {
            kind: kind_of(usable, pin),
            count: 1,
        };
        put(&mut groups, one)?;
    }
    Ok(groups)
}

pub(crate) fn kind_of(usable: ServerSet, pin: &Pin) -> PinKind
    ensures { result ≡ kind_of usable pin.now }
{
    PinKind {
        place: pin.place,
        permitted: permitted(pin.id.want, usable),
        cost: pin.cost,
    }
}

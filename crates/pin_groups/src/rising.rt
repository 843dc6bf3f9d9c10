ghost use Rattle.std.specs.Prelude.{◌≡◌, ℕ, ◌+◌, ◌<◌, ◌≤◌, true, false, length, OnOk, slice_index_or, if◌then◌else◌};
ghost use Rattle.lb_types.specs.declared.limits.TheConstants.{MAX_PINS};
ghost use Rattle.lb_types_pins.specs.declared.kind.Group.{Group as AnyGroup};
ghost use Rattle.lb_types_pins.specs.declared.kind.PinKind.{PinKind as AnyKind};
ghost use Rattle.lb_types_pins.specs.Kinds.{kind_before, same_kind};
ghost use Rattle.pin_set.specs.Rows.{count_in};
ghost use Rattle.pin_groups.specs.Rising.{AreRising};

use lb_types_pins::Group;
use std::alloc::AllocError;

/// Adds pins to the group of their kind, which is made where there is none. Time grows with the logarithm of the groups,
/// and with the groups of later kinds where one is made.
pub(crate) fn put(groups: &mut Vec<Group>, more: Group) -> Result<(), AllocError>
    requires rising { AreRising groups.old.items }
    requires some { 1 ≤ more.count }
    requires fits { count_in groups.old.items more.kind + more.count ≤ MAX_PINS }
    ensures rising { OnOk result (AreRising groups.new.items) }
    ensures counts { OnOk result ((kind : AnyKind) → count_in groups.new.items kind
        ≡ count_in groups.old.items kind + (if same_kind kind more.kind then more.count else 0)) }
{
    let at = place_of(groups, &more);
    if at < groups.len() && groups[at].kind == more.kind {
        groups[at].count += more.count;
    } else {
        groups.insert(at, more)?;
    }
    Ok(())
}

/// Where a group stands, or would have to stand, among others.
fn place_of(groups: &[Group], wanted: &Group) -> usize
    requires { AreRising groups.now }
    ensures within { result ≤ length groups.now }
    ensures before { (k : ℕ) (d : AnyGroup) → k < result
        → kind_before (slice_index_or groups.now k d).kind wanted.now.kind ≡ true }
    ensures behind { (k : ℕ) (d : AnyGroup) → result ≤ k → k < length groups.now
        → kind_before (slice_index_or groups.now k d).kind wanted.now.kind ≡ false }
{
    groups.partition_point(|group| group.is_before(wanted))
}

ghost use Rattle.std.specs.Prelude.{◌≡◌, ℕ, ◌+◌, ◌<◌, ◌≤◌, true, false, length, sum_by, IfOk, OnOk, slice_index_or, if◌then◌else◌};
ghost use Rattle.lb_types.specs.declared.limits.TheConstants.{MAX_PINS};
ghost use Rattle.lb_types_pins.specs.declared.kind.Group.{Group as AnyGroup};
ghost use Rattle.lb_types_pins.specs.declared.kind.PinKind.{PinKind as AnyKind};
ghost use Rattle.lb_types_pins.specs.Kinds.{kind_before, same_kind};
ghost use Rattle.pin_set.specs.Rows.{count_in};
ghost use Rattle.pin_groups.specs.Rising.{AreRising};

use lb_types_pins::Group;
use std::alloc::{AllocError, Global};

/// The groups in rising order, with those of one kind added up and empty ones left out.
///
/// Each group is looked up among those so far, by binary search, and a new one moves those of later kinds.
pub(crate) fn merged(alloc: Global, groups: &[Group]) -> Result<Vec<Group>, AllocError>
    requires { sum_by (λ g. g.count) groups.now ≤ MAX_PINS }
    ensures rising { IfOk result (λ all. AreRising all.items) }
    ensures counts { IfOk result (λ all. (kind : AnyKind) → count_in all.items kind ≡ count_in groups.now kind) }
    ensures total { IfOk result (λ all. sum_by (λ g. g.count) all.items ≡ sum_by (λ g. g.count) groups.now) }
{
    let mut all = Vec::new(alloc);
    for group in groups {
        if group.count > 0 {
            put(&mut all, *group)?;
        }
    }
    Ok(all)
}

/// Adds pins to the group of their kind, which is made where there is none.
fn put(groups: &mut Vec<Group>, more: Group) -> Result<(), AllocError>
    requires rising { AreRising groups.old.items }
    requires some { 1 ≤ more.count }
    requires fits { count_in groups.old.items more.kind + more.count ≤ MAX_PINS }
    ensures rising { OnOk result (AreRising groups.new.items) }
    ensures counts { OnOk result ((kind : AnyKind) → count_in groups.new.items kind
        ≡ count_in groups.old.items kind + (if same_kind kind more.kind then more.count else 0)) }
    ensures total { OnOk result (sum_by (λ g. g.count) groups.new.items ≡ sum_by (λ g. g.count) groups.old.items + more.count) }
{
    let at = place_of(groups, &more);
    if at < groups.len() && groups[at].kind == more.kind {
        groups[at].count += more.count;
    } else {
        groups.insert(at, more)?;
    }
    Ok(())
}

/// Where a group stands, or would have to stand, among others.
fn place_of(groups: &[Group], wanted: &Group) -> usize
    requires { AreRising groups.now }
    ensures within { result ≤ length groups.now }
    ensures before { (k : ℕ) (d : AnyGroup) → k < result
        → kind_before (slice_index_or groups.now k d).kind wanted.now.kind ≡ true }
    ensures behind { (k : ℕ) (d : AnyGroup) → result ≤ k → k < length groups.now
        → kind_before (slice_index_or groups.now k d).kind wanted.now.kind ≡ false }
{
    groups.partition_point(|group| group.is_before(wanted))
}

ghost use Rattle.std.specs.Prelude.{◌≡◌, ℕ, ◌<◌, ◌≤◌, true, false, length, map, IfOk, slice_index_or};
ghost use Rattle.lb_types_pins.specs.declared.kind.Row.{Row as AnyRow};
ghost use Rattle.lb_types_pins.specs.Kinds.{kind_before};
ghost use Rattle.dual_cert_plan.specs.Plans.{groups_of};
ghost use Rattle.pin_set.specs.Rows.{AreGroupsOf, Agrees};
ghost use Rattle.pin_set.specs.Views.{kind_of, kinds_of};
ghost use Rattle.pin_groups.specs.Leftovers.{AreRisingRows, AreUsedUp, is_of, left_in};

use crate::grouping::kind_of;
use dual_cert_plan::Plan;
use lb_types::{Place, ServerSet};
use lb_types_pins::{PinKind, Row};
use pin_set::{Pin, View};
use std::alloc::{AllocError, Global};

/// Places for the pins of a view, as many of each kind to each place as the plan says: the i-th pin goes to the i-th place. The plan
/// must be one for a sheet of this view. A pin stays where it is as long as the plan keeps pins of its kind there.
///
/// Time grows with the pins times the logarithm of the rows, and with the rows. Each pin is looked up among the rows by binary
/// search, and one that moves starts where the last one of its kind found a row. So together they pass over each row once. Memory for
/// the places and for two numbers a row, asked for first.
pub fn spread(alloc: Global, view: &View, plan: &Plan) -> Result<Vec<Place>, AllocError>
    requires { AreGroupsOf (groups_of plan.now.rows) (kinds_of view.now) }
    ensures { IfOk result (λ places. Agrees plan.now.rows (kinds_of view.now) places.items) }
{
    spread_pins(alloc, view.usable(), view.pins(), plan.rows())
}

fn spread_pins(
    alloc: Global,
    usable: ServerSet,
    pins: &[Pin],
    rows: &[Row],
) -> Result<Vec<Place>, AllocError>
    requires rising { AreRisingRows rows.now }
    requires counts { AreGroupsOf (groups_of rows.now) (map (kind_of usable) pins.now) }
    ensures { IfOk result (λ places. Agrees rows.now (map (kind_of usable) pins.now) places.items) }
{
    let mut left = counts(alloc, rows)?;
    let mut used_to = vec![in alloc; 0; rows.len()]?;
    let mut places = Vec::with_capacity(alloc, pins.len())?;
    for pin in pins {
        let at = row_for(rows, &left, &mut used_to, kind_of(usable, pin));
        left[at] -= 1;
        places.push(rows[at].new_place)?;
    }
    Ok(places)
}

fn counts(alloc: Global, rows: &[Row]) -> Result<Vec<u32>, AllocError>
    ensures { IfOk result (λ counts. counts.items ≡ map (λ row. row.count) rows.now) }
{
    rows.iter().map(|row| row.count).collect(alloc)
}

/// A row that has a pin of this kind left: the one that keeps the pin in place, if it has, and else the first one.
///
/// At the first row of each kind, `used_to` has a row before which the kind has no pins left. It is moved on to the row that is
/// found, so that no later call for this kind passes over the same rows.
fn row_for(rows: &[Row], left: &[u32], used_to: &mut [usize], kind: PinKind) -> usize
    requires rising { AreRisingRows rows.now }
    requires whole { length left.now ≡ length rows.now }
    requires used_up { AreUsedUp left.now used_to.old }
    requires some { 1 ≤ left_in (is_of kind) rows.now left.now }
    ensures within { result < length rows.now }
    ensures kind { (d : AnyRow) → (slice_index_or rows.now result d).kind ≡ kind }
    ensures some { 1 ≤ slice_index_or left.now result 0 }
    ensures used_up { AreUsedUp left.now used_to.new }
{
    let stay = Row {
        kind,
        new_place: kind.place,
        count: 1,
    };
    let at = rows.partition_point(|row| row.is_before(&stay));
    if at < rows.len()
        && left[at] > 0
        && rows[at].kind == kind
        && rows[at].new_place == kind.place
    {
        return at;
    }
    let first = first_of(rows, kind);
    let at = first_left(left, used_to[first].max(first));
    used_to[first] = at;
    at
}

/// Where the rows of a kind begin, or would have to.
fn first_of(rows: &[Row], kind: PinKind) -> usize
    requires { AreRisingRows rows.now }
    ensures within { result ≤ length rows.now }
    ensures before { (k : ℕ) (d : AnyRow) → k < result
        → kind_before (slice_index_or rows.now k d).kind kind ≡ true }
    ensures behind { (k : ℕ) (d : AnyRow) → result ≤ k → k < length rows.now
        → kind_before (slice_index_or rows.now k d).kind kind ≡ false }
{
    rows.partition_point(|row| row.kind < kind)
}

/// The first row from a place on that has pins left, or the end.
fn first_left(left: &[u32], from: usize) -> usize
    requires { from ≤ length left.now }
    ensures from { from ≤ result }
    ensures within { result ≤ length left.now }
    ensures skipped { (k : ℕ) → from ≤ k → k < result → slice_index_or left.now k 0 ≡ 0 }
    ensures some { result < length left.now → 1 ≤ slice_index_or left.now result 0 }
{
    for at in from..left.len() {
        if left[at] > 0 {
            return at;
        }
    }
    left.len()
}

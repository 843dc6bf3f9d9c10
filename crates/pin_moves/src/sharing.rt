ghost use Rattle.std.specs.Prelude.{◌≡◌, ℕ, ◌+◌, ◌<◌, ◌≤◌, ◌⊎◌, Option, true, All, AllPairs, IfOk, OnOk, length, sum_by, slice_index_or, if◌then◌else◌};
ghost use Rattle.lb_types.specs.declared.limits.TheConstants.{MAX_PINS};
ghost use Rattle.lb_types_pins.specs.declared.kind.PinKind.{PinKind as AnyKind};
ghost use Rattle.lb_types_pins.specs.declared.kind.Row.{Row as AnyRow};
ghost use Rattle.lb_types_pins.specs.Kinds.{place_before, kind_before, row_before, same_kind};
ghost use Rattle.dual_cert_plan.specs.Plans.{groups_of, pins_in_rows};
ghost use Rattle.pin_set.specs.Rows.{is_move, sent};
ghost use Rattle.pin_groups.specs.Counts.{AreGroupsOfCounts, counted_kind, counted_with};
ghost use Rattle.pin_moves.specs.Leftovers.{AreInOrder, GoesBehind};
ghost use Rattle.pin_moves.specs.Moves.{AreRisingCounts, counted_pins, moved_pins, move_before, moved_with, moved_to};

use crate::Move;
use dual_cert_plan::Plan;
use lb_types::{Place, ServerSet};
use lb_types_pins::{PinKind, Row};
use pin_set::{PinCount, permitted};
use std::alloc::{AllocError, Global};

/// Moves of the counted pins that send as many of each kind to each place as the plan says. They are in strictly rising order by
/// place, wanted servers and cost, then by where the pins go. The plan must be one for a sheet with these counts and usable servers.
///
/// Each count takes from the rows of its kind what it needs, row after row, so there are fewer moves than counts and rows together.
/// Time grows with counts and rows, times the logarithm of the rows. Memory for the moves and for a copy of the rows.
pub fn moves_of(
    alloc: Global,
    counts: &[PinCount],
    usable: ServerSet,
    plan: &Plan,
) -> Result<Vec<Move>, AllocError>
    requires rising { AreRisingCounts counts.now }
    requires groups { AreGroupsOfCounts usable (groups_of plan.now.rows) counts.now }
    ensures whole { IfOk result (λ moves. (place : Option ℕ) (want cost : ℕ)
        → moved_with moves.items place want cost ≡ counted_with counts.now place want cost) }
    ensures sent { IfOk result (λ moves. (kind : AnyKind) (to : Option ℕ)
        → moved_to usable moves.items kind to ≡ sent plan.now.rows kind to) }
    ensures some { IfOk result (λ moves. All (λ m. 1 ≤ m.count) moves.items) }
    ensures rising { IfOk result (λ moves. AllPairs (λ a b. move_before a b ≡ true) moves.items) }
{
    shared_out(alloc, counts, usable, plan.rows())
}

fn shared_out(
    alloc: Global,
    counts: &[PinCount],
    usable: ServerSet,
    rows: &[Row],
) -> Result<Vec<Move>, AllocError>
    requires rising { AreRisingCounts counts.now }
    requires rising_rows { AllPairs (λ a b. row_before a b ≡ true) rows.now }
    requires counted { All (λ r. 1 ≤ r.count) rows.now }
    requires few { sum_by (λ r. r.count) rows.now ≤ MAX_PINS }
    requires groups { AreGroupsOfCounts usable (groups_of rows.now) counts.now }
    ensures whole { IfOk result (λ moves. (place : Option ℕ) (want cost : ℕ)
        → moved_with moves.items place want cost ≡ counted_with counts.now place want cost) }
    ensures sent { IfOk result (λ moves. (kind : AnyKind) (to : Option ℕ)
        → moved_to usable moves.items kind to ≡ sent rows.now kind to) }
    ensures some { IfOk result (λ moves. All (λ m. 1 ≤ m.count) moves.items) }
    ensures rising { IfOk result (λ moves. AllPairs (λ a b. move_before a b ≡ true) moves.items) }
{
    let mut left = rows.to_vec(alloc)?;
    let mut moves = Vec::new(alloc);
    for counted in counts {
        share(&mut left, usable, counted, &mut moves)?;
    }
    Ok(moves)
}

/// Appends moves for the pins of one count. They are taken out of what is left of the plan's rows.
fn share(
    left: &mut [Row],
    usable: ServerSet,
    counted: &PinCount,
    moves: &mut Vec<Move>,
) -> Result<(), AllocError>
    requires ordered { AreInOrder left.old }
    requires enough { counted.now.count ≤ pins_in_rows (counted_kind usable counted.now) left.old }
    requires few { counted.now.count ≤ MAX_PINS }
    requires some { All (λ m. 1 ≤ m.count) moves.old.items }
    requires rising { AllPairs (λ a b. move_before a b ≡ true) moves.old.items }
    requires behind { All (λ m. kind_before (moved_pins m) (counted_pins counted.now) ≡ true) moves.old.items }
    ensures ordered { OnOk result (AreInOrder left.new) }
    ensures left { OnOk result ((kind : AnyKind) → pins_in_rows kind left.new
        + (if same_kind kind (counted_kind usable counted.now) then counted.now.count else 0) ≡ pins_in_rows kind left.old) }
    ensures sent { OnOk result ((kind : AnyKind) (to : Option ℕ)
        → moved_to usable moves.new.items kind to + sent left.new kind to
        ≡ moved_to usable moves.old.items kind to + sent left.old kind to) }
    ensures whole { OnOk result ((pins : AnyKind) → moved_with moves.new.items pins.place pins.permitted pins.cost
        ≡ moved_with moves.old.items pins.place pins.permitted pins.cost
        + (if same_kind pins (counted_pins counted.now) then counted.now.count else 0)) }
    ensures some { OnOk result (All (λ m. 1 ≤ m.count) moves.new.items) }
    ensures rising { OnOk result (AllPairs (λ a b. move_before a b ≡ true) moves.new.items) }
    ensures last { OnOk result (All (λ m. (kind_before (moved_pins m) (counted_pins counted.now) ≡ true)
        ⊎ (moved_pins m ≡ counted_pins counted.now)) moves.new.items) }
{
    let mut wanted = counted.count as u32;
    while wanted > 0 {
        let (to, count) = take(left, counted_kind(usable, counted), wanted);
        wanted -= count;
        moves.push(Move {
            place: counted.place,
            want: counted.want,
            cost: counted.cost,
            to,
            count,
        })?;
    }
    Ok(())
}

fn counted_kind(usable: ServerSet, counted: &PinCount) -> PinKind
    ensures { result ≡ counted_kind usable counted.now }
{
    PinKind {
        place: counted.place,
        permitted: permitted(counted.want, usable),
        cost: counted.cost,
    }
}

/// Takes pins of a kind out of the first row that has some left, as many as are wanted and left there. Gives where they go and
/// how many they are.
fn take(left: &mut [Row], kind: PinKind, wanted: u32) -> (Place, u32)
    requires ordered { AreInOrder left.old }
    requires some { 1 ≤ pins_in_rows kind left.old }
    requires wanted { 1 ≤ wanted }
    ensures ordered { AreInOrder left.new }
    ensures some { 1 ≤ result.1 }
    ensures within { result.1 ≤ wanted }
    ensures left { (other : AnyKind) → pins_in_rows other left.new + (if same_kind other kind then result.1 else 0)
        ≡ pins_in_rows other left.old }
    ensures sent { (other : AnyKind) (to : Option ℕ)
        → sent left.new other to + (if is_move other to (kind, result.0) then result.1 else 0) ≡ sent left.old other to }
    ensures used_up { result.1 < wanted → GoesBehind left.new kind result.0 }
    ensures later { (place : Option ℕ) → GoesBehind left.old kind place
        → (place_before place result.0 ≡ true) × GoesBehind left.new kind place }
{
    let row = &mut left[first_left(left, kind)];
    let count = row.count.min(wanted);
    row.count -= count;
    (row.new_place, count)
}

/// The first row of a kind that has pins left.
fn first_left(left: &[Row], kind: PinKind) -> usize
    requires ordered { AreInOrder left.now }
    requires some { 1 ≤ pins_in_rows kind left.now }
    ensures within { result < length left.now }
    ensures kind { (d : AnyRow) → (slice_index_or left.now result d).kind ≡ kind }
    ensures some { (d : AnyRow) → 1 ≤ (slice_index_or left.now result d).count }
    ensures first { (k : ℕ) (d : AnyRow) → k < result → (slice_index_or left.now k d).kind ≡ kind
        → (slice_index_or left.now k d).count ≡ 0 }
{
    left.partition_point(|row| row.kind < kind || row.kind == kind && row.count == 0)
}

ghost use Rattle.std.specs.Prelude.{◌≡◌, ℕ, ◌+◌, ◌<◌, ◌≤◌, true, All, AllPairs, IsTrue, IfOk, IfSome, Option, length, sum_by, slice_index_or, if◌then◌else◌};
ghost use Rattle.lb_types_pins.specs.declared.kind.PinKind.{PinKind as AnyKind};
ghost use Rattle.lb_types_pins.specs.Kinds.{kind_before, same_kind};
ghost use Rattle.dual_cert_plan.specs.Plans.{groups_of, pins_in_rows};
ghost use Rattle.pin_set.specs.Rows.{sent};
ghost use Rattle.pin_groups.specs.Counts.{AreGroupsOfCounts, counted_kind, counted_with};
ghost use Rattle.pin_moves.specs.Moves.{AreRisingCounts, counted_pins, move_before, moved_with, moved_to};

use dual_cert_plan::Plan;
use lb_types::ServerSet;
use lb_types_pins::{PinKind, Row};
use pin_moves::{Move, moves_of};
use pin_set::{PinCount, permitted};
use std::alloc::{AllocError, Global};

/// The moves of a plan, where the counts rise, none is 0, and the plan is one for them; none where not.
pub(crate) fn checked_moves(
    alloc: Global,
    counts: &[PinCount],
    usable: ServerSet,
    plan: &Plan,
) -> Result<Option<Vec<Move>>, AllocError>
    ensures whole { IfOk result (λ found. IfSome found (λ moves. (place : Option ℕ) (want cost : ℕ)
        → moved_with moves.items place want cost ≡ counted_with counts.now place want cost)) }
    ensures sent { IfOk result (λ found. IfSome found (λ moves. (kind : AnyKind) (to : Option ℕ)
        → moved_to usable moves.items kind to ≡ sent plan.now.rows kind to)) }
    ensures some { IfOk result (λ found. IfSome found (λ moves. All (λ m. 1 ≤ m.count) moves.items)) }
    ensures rising { IfOk result (λ found. IfSome found (λ moves. AllPairs (λ a b. move_before a b ≡ true) moves.items)) }
{
    if !rise(counts) || !are_counted(usable, plan.rows(), counts) {
        return Ok(None);
    }
    let moves = moves_of(alloc, counts, usable, plan)?;
    Ok(Some(moves))
}

/// Whether the counts rise and none is 0.
fn rise(counts: &[PinCount]) -> bool
    ensures { IsTrue result → AreRisingCounts counts.now }
{
    for i in 0..counts.len() {
        if counts[i].count == 0 || !stand_before(&counts[..i], &counts[i]) {
            return false;
        }
    }
    true
}

fn stand_before(earlier: &[PinCount], later: &PinCount) -> bool
    ensures { IsTrue result → (k : ℕ) (d : PinCount) → k < length earlier.now
        → kind_before (counted_pins (slice_index_or earlier.now k d)) (counted_pins later.now) ≡ true }
{
    for count in earlier {
        if (count.place, count.want, count.cost) >= (later.place, later.want, later.cost) {
            return false;
        }
    }
    true
}

/// Whether the rows have as many pins of each kind as the counts. It says no where 64 bits can't sum them up.
fn are_counted(usable: ServerSet, rows: &[Row], counts: &[PinCount]) -> bool
    ensures { IsTrue result → AreGroupsOfCounts usable (groups_of rows.now) counts.now }
{
    for row in rows {
        if !is_counted(usable, rows, counts, &row.kind) {
            return false;
        }
    }
    for count in counts {
        if !is_counted(usable, rows, counts, &counted_kind(usable, count)) {
            return false;
        }
    }
    true
}

fn is_counted(usable: ServerSet, rows: &[Row], counts: &[PinCount], kind: &PinKind) -> bool
    ensures { IsTrue result → sum_by (λ c. if same_kind kind.now (counted_kind usable c) then c.count else 0) counts.now
        ≡ pins_in_rows kind.now rows.now }
{
    let in_rows = pins_in_rows(rows, kind);
    in_rows.is_some() && in_rows == pins_counted(usable, counts, kind)
}

fn counted_kind(usable: ServerSet, count: &PinCount) -> PinKind
    ensures { result ≡ counted_kind usable count.now }
{
    PinKind {
        place: count.place,
        permitted: permitted(count.want, usable),
        cost: count.cost,
    }
}

fn pins_in_rows(rows: &[Row], kind: &PinKind) -> Option<u64>
    ensures { IfSome result (λ pins. pins ≡ pins_in_rows kind.now rows.now) }
{
    let mut pins = 0u64;
    for row in rows {
        if row.kind == *kind {
            pins = pins.checked_add(row.count as u64)?;
        }
    }
    Some(pins)
}

fn pins_counted(usable: ServerSet, counts: &[PinCount], kind: &PinKind) -> Option<u64>
    ensures { IfSome result (λ pins. pins
        ≡ sum_by (λ c. if same_kind kind.now (counted_kind usable c) then c.count else 0) counts.now) }
{
    let mut pins = 0u64;
    for count in counts {
        if counted_kind(usable, count) == *kind {
            pins = pins.checked_add(count.count)?;
        }
    }
    Some(pins)
}

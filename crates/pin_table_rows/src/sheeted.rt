ghost use Rattle.std.specs.Prelude.{◌≡◌, ℕ, ◌^◌, ◌≤◌, IsTrue, IfOk, IfSome, Option};
ghost use Rattle.pin_groups.specs.Counts.{AreGroupsOfCounts, counted_with, pins_with};

use dual_cert_plan::Sheet;
use pin_groups::sheet_of;
use pin_set::{Pin, PinCount, View};
use std::alloc::{AllocError, Global};

/// The sheet that counts make, where they count the view's pins; none where not. `version` is at most 2^63.
pub(crate) fn checked_sheet(
    alloc: Global,
    view: &View,
    counts: &[PinCount],
    version: u64,
) -> Result<Option<Sheet>, AllocError>
    requires { version ≤ 2 ^ 63 }
    ensures version { IfOk result (λ found. IfSome found (λ sheet. sheet.version ≡ version)) }
    ensures groups { IfOk result (λ found. IfSome found (λ sheet.
        AreGroupsOfCounts view.now.usable sheet.groups counts.now)) }
{
    if !are_pins_counted(view.pins(), counts) {
        return Ok(None);
    }
    let sheet = sheet_of(alloc, counts, view.usable(), view.servers(), version)?;
    Ok(Some(sheet))
}

/// Whether the counts are those of the pins. It says no where 64 bits can't sum them up.
fn are_pins_counted(pins: &[Pin], counts: &[PinCount]) -> bool
    ensures { IsTrue result → (place : Option ℕ) (want cost : ℕ)
        → pins_with pins.now place want cost ≡ counted_with counts.now place want cost }
{
    for pin in pins {
        if !is_counted(pins, counts, &one_of(pin)) {
            return false;
        }
    }
    for count in counts {
        if !is_counted(pins, counts, count) {
            return false;
        }
    }
    true
}

fn one_of(pin: &Pin) -> PinCount
    ensures { result ≡ record {
      place = pin.now.place;
      want = pin.now.id.want;
      cost = pin.now.cost;
      count = 1;
    } }
{
    PinCount {
        place: pin.place,
        want: pin.id.want,
        cost: pin.cost,
        count: 1,
    }
}

fn is_counted(pins: &[Pin], counts: &[PinCount], of: &PinCount) -> bool
    ensures { IsTrue result → pins_with pins.now of.now.place of.now.want of.now.cost
        ≡ counted_with counts.now of.now.place of.now.want of.now.cost }
{
    let counted = counted_with(counts, of);
    counted.is_some() && counted == Some(pins_with(pins, of))
}

fn pins_with(pins: &[Pin], of: &PinCount) -> u64
    ensures { result ≡ pins_with pins.now of.now.place of.now.want of.now.cost }
{
    pins.iter()
        .filter(|pin| pin.place == of.place && pin.id.want == of.want && pin.cost == of.cost)
        .count() as u64
}

fn counted_with(counts: &[PinCount], of: &PinCount) -> Option<u64>
    ensures { IfSome result (λ pins. pins ≡ counted_with counts.now of.now.place of.now.want of.now.cost) }
{
    let mut pins = 0u64;
    for count in counts {
        if count.place == of.place && count.want == of.want && count.cost == of.cost {
            pins = pins.checked_add(count.count)?;
        }
    }
    Some(pins)
}

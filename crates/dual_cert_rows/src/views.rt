//! The sheet of a view, and plans spread over the pins of one. Servers of numbered views are called `aa`, `ab` and so on.
ghost use Rattle.std.specs.Prelude.{◌≡◌, IfOk, map};

use crate::parts::{GroupRow, ServerRow, are_groups, are_servers, place_of, set_of};
use dual_cert::{Plan, Sheet, read_plan};
use lb_types::{Place, ServerSet};
use pin_groups::{group, sheet_of};
use pin_groups_spread::{PlainPin, numbered_view, spread_best};
use pin_set::{Pin, PinCount, View};
use std::alloc::{AllocError, Global};
use std::process::Abort;
use std::test::Fail;

fn view_of(
    alloc: Global,
    usable: ServerSet,
    capacities: &[u32],
    pins: &[PlainPin],
) -> Result<View, Fail> {
    match numbered_view(alloc, usable, capacities, pins)? {
        Some(view) => Ok(view),
        None => Err(Fail::new("a small farm has a view")),
    }
}

/// A pin by place, wanted servers and cost.
type PinRow = (Option<u8>, &'static [u8], u16);

fn pins_of(alloc: Global, rows: &[PinRow]) -> Result<Vec<PlainPin>, AllocError> {
    let mut pins = Vec::new(alloc);
    for (place, want, cost) in rows {
        pins.push(PlainPin {
            place: place_of(*place),
            want: set_of(*want),
            cost: *cost,
        })?;
    }
    Ok(pins)
}

/// A view by its usable servers, the capacities of all and its pins, and what its sheet has.
struct Worked {
    usable: &'static [u8],
    capacities: &'static [u32],
    pins: &'static [PinRow],
    servers: &'static [ServerRow],
    groups: &'static [GroupRow],
}

/// Two pins of one place and cost that want different servers, and one that has no place.
const UNLIKE: &[PinRow] = &[(Some(0), &[], 3), (Some(0), &[0], 3), (None, &[1], 7)];

const WORKED: &[Worked] = &[
    // The pins differ in what they want, which no longer matters where no server is usable.
    Worked {
        usable: &[],
        capacities: &[1],
        pins: UNLIKE,
        servers: &[(b"aa", None)],
        groups: &[(1, None, &[], 7), (2, Some(0), &[], 3)],
    },
    // Of three servers the second isn't usable. A pin that wants it may go to both others, as one that wants none may.
    Worked {
        usable: &[0, 2],
        capacities: &[7, 8, 9],
        pins: &[(Some(0), &[], 1), (Some(0), &[0], 1), (Some(0), &[1], 1)],
        servers: &[(b"aa", Some(7)), (b"ab", None), (b"ac", Some(9))],
        groups: &[(1, Some(0), &[0], 1), (2, Some(0), &[0, 2], 1)],
    },
];

fn expect_sheet(rt: &impl Abort, alloc: Global, worked: &Worked) -> Result<(), Fail> {
    let pins = pins_of(alloc, worked.pins)?;
    let view = view_of(alloc, set_of(worked.usable), worked.capacities, &pins)?;
    expect_sheet_of(rt, alloc, &view, worked)
}

/// The view's sheet has what it should, and counts of its pins give the same sheet.
fn expect_sheet_of(
    rt: &impl Abort,
    alloc: Global,
    view: &View,
    worked: &Worked,
) -> Result<(), Fail> {
    let sheet = group(alloc, view, 5)?;
    let counted = sheet_of_counts(alloc, view)?;
    let is_right = sheet.version() == 5
        && are_servers(sheet.servers(), worked.servers)
        && are_groups(sheet.groups(), worked.groups);
    assert!(rt; is_right && counted == sheet, "{sheet:?} {counted:?}");
    Ok(())
}

fn sheet_of_counts(alloc: Global, view: &View) -> Result<Sheet, AllocError> {
    let counts = counts_of(alloc, view.pins())?;
    sheet_of(alloc, &counts, view.usable(), view.servers(), 5)
}

/// A count of one for each pin.
fn counts_of(alloc: Global, pins: &[Pin]) -> Result<Vec<PinCount>, AllocError>
    ensures { IfOk result (λ counts. counts.items
        ≡ map (λ pin. record { place = pin.place; want = pin.id.want; cost = pin.cost; count = 1 }) pins.now) }
{
    pins.iter().map(|pin| one_each(pin)).collect(alloc)
}

fn one_each(pin: &Pin) -> PinCount
    ensures { result ≡ record {
      place = pin.now.place;
      want = pin.now.id.want;
      cost = pin.now.cost;
      count = 1;
    } }
{
    PinCount {
        place: pin.place,
        want: pin.id.want,
        cost: pin.cost,
        count: 1,
    }
}

#[test]
fn a_sheet_has_a_group_for_each_place_permitted_set_and_cost_in_rising_order(
    rt: HostRuntime,
) -> Result<(), Fail> {
    for worked in WORKED {
        expect_sheet(&rt, rt.alloc(), worked)?;
    }
    Ok(())
}

/// The plan gives the pins of the view these places.
fn expect_places(
    rt: &impl Abort,
    alloc: Global,
    view: &View,
    plan: &Plan,
    due: &[Place],
) -> Result<(), Fail> {
    let Some(places) = spread_best(alloc, view, plan)? else {
        return Err(Fail::new("the plan is best for the view"));
    };
    assert_eq!(rt; places.as_slice(), due);
    Ok(())
}

// A pin stays while the plan keeps one of its kind, whatever it wants, and the places are those of the pins in their order.
#[test]
fn a_plan_is_spread_over_the_pins_of_a_view(rt: HostRuntime) -> Result<(), Fail> {
    // U is 14: to lose the place costs 17, and each place is worth that.
    let text = b"stickyplan 2\nversion 5\nserver aa cap 1 price 17\n\
        row 1 - - aa 7\nrow 1 aa - aa 3\nrow 1 aa aa aa 3\nend\n";
    let plan = read_plan(rt.alloc(), text)?;
    let pins = pins_of(rt.alloc(), UNLIKE)?;
    let view = view_of(rt.alloc(), set_of(&[0]), &[1], &pins)?;
    let a = place_of(Some(0));
    expect_places(&rt, rt.alloc(), &view, &plan, &[a, None, None])
}

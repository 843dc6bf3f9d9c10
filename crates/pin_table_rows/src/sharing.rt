//! Plans shared out among counts, and handed out pin by pin. Servers are called `aa`, `ab` and so on.
ghost use Rattle.std.specs.Prelude.{◌≤◌, IsTrue};
ghost use Rattle.pin_moves.specs.Moves.{moved_with};

use crate::checked::checked_moves;
use crate::sheeted::checked_sheet;
use dual_cert::read_plan;
use lb_types::{Place, ServerId, ServerSet};
use lb_types_pins::{Group, PinKind};
use pin_groups_spread::{PlainPin, numbered_view};
use pin_moves::{Move, Moving};
use pin_set::{PinCount, View};
use std::alloc::Global;
use std::process::Abort;
use std::test::Fail;

fn count(place: Place, want: ServerSet, cost: u16, count: u64) -> PinCount {
    PinCount {
        place,
        want,
        cost,
        count,
    }
}

fn one_move(of: PinCount, to: Place, count: u32) -> Move {
    Move {
        place: of.place,
        want: of.want,
        cost: of.cost,
        to,
        count,
    }
}

/// Where one more of the counted pins goes, or none where none of them is left.
fn next_place(moving: &mut Moving, of: &PinCount) -> Option<Place> {
    if has_some(moving.left(), of) {
        Some(moving.next(of.place, of.want, of.cost))
    } else {
        None
    }
}

fn has_some(left: &[Move], of: &PinCount) -> bool
    ensures { IsTrue result → 1 ≤ moved_with left.now of.now.place of.now.want of.now.cost }
{
    for m in left {
        if m.place == of.place && m.want == of.want && m.cost == of.cost && m.count > 0 {
            return true;
        }
    }
    false
}

const PLAN: &[u8] = b"stickyplan 2\nversion 5\nserver aa cap 4 price 0\nserver ab cap 9 price 0\n\
    row 2 aa ab ab 3\nrow 4 aa aa aa,ab 3\nrow 1 aa ab aa,ab 3\nend\n";

/// The counts whose pins ask for a place, one after another, and where each goes, if one is left: 0 is `aa`, and 1 is `ab`.
const HANDED: &[(usize, Option<u8>)] = &[
    (2, Some(0)),
    (0, Some(0)),
    (1, Some(1)),
    (2, Some(1)),
    (2, None),
    (1, Some(1)),
    (1, None),
    (0, Some(0)),
    (0, Some(0)),
    (0, None),
];

/// The moves are handed out so.
fn hand_out(rt: &impl Abort, moving: &mut Moving, counts: &[PinCount; 3]) {
    for (of, server) in HANDED {
        let wanted = server.map(|server| Some(ServerId::new(server % 128)));
        assert_eq!(rt; next_place(moving, &counts[*of % 3]), wanted);
    }
}

// Both servers are usable. Of five pins at `aa` that may go to both, three want none of the servers and two want both: one kind
// of the plan, which keeps four of them and sends one to `ab`. The two that want `ab` alone are of another kind, and go there.
#[test]
fn counts_of_one_kind_share_its_rows_and_each_pin_is_handed_a_place(
    rt: HostRuntime,
) -> Result<(), Fail> {
    let none = ServerSet::empty();
    let (a, b) = (ServerId::new(0), ServerId::new(1));
    let only_b = none.with(b);
    let both = only_b.with(a);
    let counts = [
        count(Some(a), none, 3, 3),
        count(Some(a), only_b, 3, 2),
        count(Some(a), both, 3, 2),
    ];
    let plan = read_plan(rt.alloc(), PLAN)?;
    let Some(moves) = checked_moves(rt.alloc(), &counts, both, &plan)? else {
        return Err(Fail::new("the plan is one for these counts"));
    };
    let due = [
        one_move(counts[0], Some(a), 3),
        one_move(counts[1], Some(b), 2),
        one_move(counts[2], Some(a), 1),
        one_move(counts[2], Some(b), 1),
    ];
    assert_eq!(rt; moves.as_slice(), due.as_slice());
    hand_out(&rt, &mut Moving::new(moves), &counts);
    Ok(())
}

fn pin(place: Place, want: ServerSet, cost: u16) -> PlainPin {
    PlainPin { place, want, cost }
}

fn group(place: Place, permitted: ServerSet, cost: u16, count: u32) -> Group {
    Group {
        kind: PinKind {
            place,
            permitted,
            cost,
        },
        count,
    }
}

/// What the sheet of a view has: its groups, and the first server's capacity.
#[derive(Clone, Copy)]
struct Due<'a> {
    usable: ServerSet,
    capacity: Option<u32>,
    groups: &'a [Group],
}

/// The counts make this sheet of the view, and one count fewer makes none.
fn expect_sheet(
    rt: &impl Abort,
    alloc: Global,
    pins: &[PlainPin],
    counts: &[PinCount],
    due: &Due<'_>,
) -> Result<(), Fail> {
    let Some(view) = numbered_view(alloc, due.usable, &[4, 9], pins)? else {
        return Err(Fail::new("a small farm has a view"));
    };
    let Some(sheet) = checked_sheet(alloc, &view, counts, 8)? else {
        return Err(Fail::new("the counts are those of the pins"));
    };
    let capacity = sheet.servers().first().and_then(|server| server.capacity);
    let has_less = has_sheet(
        alloc,
        &view,
        counts.split_last().map_or(counts, |last| last.1),
    )?;
    let found = (sheet.version(), capacity, has_less, sheet.groups());
    assert_eq!(rt; found, (8, due.capacity, false, due.groups));
    Ok(())
}

fn has_sheet(alloc: Global, view: &View, counts: &[PinCount]) -> Result<bool, Fail> {
    Ok(checked_sheet(alloc, view, counts, 8)?.is_some())
}

// The table has six pins, of four places, wanted servers and costs. Where both servers are usable, a pin that wants none may go to
// both as well as one that wants both. Where `ab` alone is, whatever they want, pins of one place and cost are of one kind.
#[test]
fn a_tables_counts_make_its_sheet(rt: HostRuntime) -> Result<(), Fail> {
    let none = ServerSet::empty();
    let (a, b) = (ServerId::new(0), ServerId::new(1));
    let only_b = none.with(b);
    let both = only_b.with(a);
    let pins = [
        pin(Some(a), both, 3),
        pin(Some(b), only_b, 1),
        pin(Some(a), none, 3),
        pin(Some(a), only_b, 3),
        pin(Some(a), none, 3),
        pin(Some(b), only_b, 1),
    ];
    let counts = [
        count(Some(a), none, 3, 2),
        count(Some(a), only_b, 3, 1),
        count(Some(a), both, 3, 1),
        count(Some(b), only_b, 1, 2),
    ];
    let both_usable = Due {
        usable: both,
        capacity: Some(4),
        groups: &[
            group(Some(a), only_b, 3, 1),
            group(Some(a), both, 3, 3),
            group(Some(b), only_b, 1, 2),
        ],
    };
    let b_usable = Due {
        usable: only_b,
        capacity: None,
        groups: &[group(Some(a), only_b, 3, 4), group(Some(b), only_b, 1, 2)],
    };
    expect_sheet(&rt, rt.alloc(), &pins, &counts, &both_usable)?;
    expect_sheet(&rt, rt.alloc(), &pins, &counts, &b_usable)
}

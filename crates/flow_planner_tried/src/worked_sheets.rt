//! Sheets whose best plans are found by hand.

use cert_check::{CheckFault, check};
use dual_cert::{Sheet, read_plan, read_sheet, write_plan};
use flow_planner::{Planned, plan};
use lb_types::Counted;
use pin_set::Score;
use std::alloc::Global;
use std::process::Abort;
use std::test::Fail;

/// Texts of sheets; and of their best plans how many pins they have, how many of them go without a server, how many move,
/// and at which cost.
const SHEETS: &[(&str, u64, u64, u64, u64)] = &[
    // No server and no pin; no server; all servers off.
    ("stickysheet 1\nversion 3\nend\n", 0, 0, 0, 0),
    ("stickysheet 1\nversion 3\ngroup 5 - -\nend\n", 5, 5, 0, 0),
    (
        "stickysheet 1\nversion 0\nserver a off\nserver b off\ngroup 3 a -\ngroup 2 b -\nend\n",
        5,
        5,
        5,
        5,
    ),
    // Room, and no pin.
    (
        "stickysheet 1\nversion 0\nserver a cap 2\nend\n",
        0,
        0,
        0,
        0,
    ),
    // No server has room, and the dear pins are as many as the cheap ones.
    (
        "stickysheet 2\nversion 1\nserver a cap 0\nserver b cap 0\ngroup 2 a a,b 7\ngroup 1 b a,b 1\nend\n",
        3,
        3,
        3,
        15,
    ),
    // The pin at b makes way for the one at a, which may go to b alone.
    (
        "stickysheet 1\nversion 1\nserver a off\nserver b cap 1\nserver c cap 1\ngroup 1 a b\ngroup 1 b b,c\nend\n",
        2,
        0,
        2,
        2,
    ),
    // Room for one of two.
    (
        "stickysheet 1\nversion 1\nserver a off\nserver b cap 1\ngroup 2 a b\nend\n",
        2,
        1,
        2,
        2,
    ),
    // More pins than a server has room for.
    (
        "stickysheet 1\nversion 1\nserver a off\nserver b cap 600000\nserver c cap 600000\ngroup 1000000 a b,c\nend\n",
        1000000,
        0,
        1000000,
        1000000,
    ),
    // Of two pins at a the cheap one moves.
    (
        "stickysheet 2\nversion 5\nserver a cap 1\nserver b cap 100\ngroup 1 a a,b 1\ngroup 1 a a,b 20\n\
            group 1 b a,b 1\nend\n",
        3,
        0,
        1,
        1,
    ),
    // Of two pins at a the dear one has no other server.
    (
        "stickysheet 2\nversion 5\nserver a cap 1\nserver b cap 100\ngroup 1 a a 20\ngroup 1 a a,b 30\nend\n",
        2,
        0,
        1,
        30,
    ),
    // One of two cheap pins moves, so that the dear one need not.
    (
        "stickysheet 2\nversion 5\nserver a cap 2\nserver b cap 1\nserver c cap 9\ngroup 1 a a 50\ngroup 2 a a,c 1\n\
            group 1 b b,c 4\nend\n",
        4,
        0,
        1,
        1,
    ),
    // Three servers in a row: a pin moves from each to the next.
    (
        "stickysheet 1\nversion 2\nserver a cap 0\nserver b cap 1\nserver c cap 1\nserver d cap 1\ngroup 1 a b\n\
            group 1 b b,c\ngroup 1 c c,d\nend\n",
        3,
        0,
        3,
        3,
    ),
    // No pin has a server, and there is room for all but one.
    (
        "stickysheet 1\nversion 9\nserver a cap 3\nserver b cap 4\ngroup 2 - b\ngroup 6 - a,b\nend\n",
        8,
        1,
        7,
        7,
    ),
    // As many pins as can be, of the highest cost: all move, all go without a server, and half of them do.
    (
        "stickysheet 2\nversion 1\nserver a off\nserver b cap 16777216\ngroup 16777216 a b 1000\nend\n",
        16777216,
        0,
        16777216,
        16777216000,
    ),
    (
        "stickysheet 2\nversion 1\nserver a cap 0\ngroup 16777216 a a 1000\nend\n",
        16777216,
        16777216,
        16777216,
        16777216000,
    ),
    (
        "stickysheet 2\nversion 9223372036854775808\nserver a cap 8388608\nserver b off\ngroup 16777216 a a 1000\nend\n",
        16777216,
        8388608,
        8388608,
        8388608000,
    ),
];

fn planned(alloc: Global, text: &str) -> Result<Planned, Fail> {
    Ok(plan(alloc, &read_sheet(alloc, text.as_bytes())?)?)
}

/// The text of the plan for the sheet of this text.
fn plan_text(alloc: Global, text: &str) -> Result<Vec<u8>, Fail> {
    written(alloc, &planned(alloc, text)?)
}

fn written(alloc: Global, planned: &Planned) -> Result<Vec<u8>, Fail> {
    let mut out = Counted::new(Vec::new(alloc));
    write_plan(planned.plan(), &mut out)?;
    Ok(out.into_inner())
}

/// What the check says of the plan for the sheet, and of the plan that is read from its text, for that one's sheet.
fn verdicts(
    alloc: Global,
    sheet: &Sheet,
    planned: &Planned,
) -> Result<(Result<Score, CheckFault>, Result<Score, CheckFault>), Fail> {
    let text = written(alloc, planned)?;
    let again = read_plan(alloc, &text)?;
    let own_sheet = again.sheet(alloc)?;
    Ok((check(sheet, planned.plan()), check(&own_sheet, &again)))
}

/// The best plan for the sheet of this text has this score, also once it is written and read.
fn expect_score(rt: &impl Abort, alloc: Global, text: &str, score: Score) -> Result<(), Fail> {
    let sheet = read_sheet(alloc, text.as_bytes())?;
    let planned = plan(alloc, &sheet)?;
    let found = (verdicts(alloc, &sheet, &planned)?, planned.plan().version());
    let wanted = ((Ok(score), Ok(score)), sheet.version());
    assert_eq!(rt; found, wanted, "{text}");
    Ok(())
}

// What goes out as text is read again as a plan that is accepted.
#[test]
fn plans_have_the_scores_that_were_found_by_hand_also_once_written_and_read(
    rt: HostRuntime,
) -> Result<(), Fail> {
    for (text, pins, unplaced, moved, cost) in SHEETS {
        let score = Score {
            pins: *pins,
            unplaced: *unplaced,
            moved: *moved,
            cost: *cost,
        };
        expect_score(&rt, rt.alloc(), *text, score)?;
    }
    Ok(())
}

/// Texts of sheets, and those of their plans.
const PRICES: &[(&str, &str)] = &[
    (
        "stickysheet 1\nversion 0\nserver a cap 2\nend\n",
        "stickyplan 1\nversion 0\nserver a cap 2 price 0\nend\n",
    ),
    (
        "stickysheet 2\nversion 4\nserver a cap 2\nserver b off\ngroup 1 b a 3\nend\n",
        "stickyplan 2\nversion 4\nserver a cap 2 price 0\nserver b off\nrow 1 b a a 3\nend\n",
    ),
];

#[test]
fn prices_are_nought_where_there_is_room_or_no_pin(rt: HostRuntime) -> Result<(), Fail> {
    for (sheet, plan) in PRICES {
        let written = plan_text(rt.alloc(), *sheet)?;
        assert_eq!(rt; written.as_slice(), plan.as_bytes(), "{sheet}");
    }
    Ok(())
}

/// Sheets of a million pins and more.
const LARGE: &[&str] = &[
    // There is room where the pins are placed first.
    "stickysheet 1\nversion 1\nserver a off\nserver b cap 600000\nserver c cap 600000\n\
        group 1000000 a b,c\nend\n",
    // All have to go, and half of them.
    "stickysheet 2\nversion 1\nserver a cap 0\ngroup 16777216 a a 1000\nend\n",
    "stickysheet 2\nversion 1\nserver a cap 8388608\nserver b off\ngroup 16777216 a a 1000\nend\n",
    // The room at the end of a way is less than the pins that have to go: a third goes to each server, and to none.
    "stickysheet 1\nversion 1\nserver a cap 0\nserver b cap 1000000\nserver c cap 1000000\n\
        group 3000000 a a,b,c\nend\n",
    // A million pins at b make way for those of a, and as many at c for those of b.
    "stickysheet 1\nversion 1\nserver a cap 0\nserver b cap 1000000\nserver c cap 1000000\n\
        server d cap 1000000\ngroup 1000000 a b\ngroup 1000000 b b,c\ngroup 1000000 c c,d\nend\n",
    // Of the pins at b that make way for those of a, half may go to c and half to d: two ways, each half as wide.
    "stickysheet 1\nversion 1\nserver a cap 0\nserver b cap 1000000\nserver c cap 900000\n\
        server d cap 900000\ngroup 1000000 a b\ngroup 500000 b b,c\ngroup 500000 b b,d\nend\n",
];

// A push moves as many pins as the narrowest arc of its way, the room at its end and the pins over the capacity allow.
#[test]
fn a_million_pins_are_moved_in_eight_pushes_at_most(rt: HostRuntime) -> Result<(), Fail> {
    for sheet in LARGE {
        let pushes = planned(rt.alloc(), *sheet)?.pushes();
        assert!(rt; pushes <= 8, "{pushes} pushes of {sheet}");
    }
    Ok(())
}

#[test]
fn pins_that_may_stay_take_no_push_and_no_look(rt: HostRuntime) -> Result<(), Fail> {
    let text =
        "stickysheet 1\nversion 1\nserver a cap 7\nserver b cap 9\ngroup 7 a a,b\ngroup 9 b a,b\nend\n";
    let planned = planned(rt.alloc(), text)?;
    assert_eq!(rt; (planned.pushes(), planned.looks()), (0, 0));
    Ok(())
}

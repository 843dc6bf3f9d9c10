//! Farms on which many plans are best, and an operator would choose an even one. Pins that can't stay where they are, are spread over
//! the servers by the share of their capacity in use. No contract promises it.

use cert_check::check;
use dual_cert::{Plan, read_sheet};
use flow_planner::plan;
use std::process::Abort;
use std::test::Fail;

/// Texts of sheets; how many pins each server is to have in the end; and by how many a server may have more or fewer. That is an
/// eighth of what a server gets on average, and one for each server that gets some.
const FARMS: &[(&str, &[u32], u32)] = &[
    // One of four equal servers is drained.
    (
        "stickysheet 1\nversion 1\nserver a off\nserver b cap 1000000\nserver c cap 1000000\nserver d cap 1000000\n\
            group 9000 a b,c,d\ngroup 9000 b b,c,d\ngroup 9000 c b,c,d\ngroup 9000 d b,c,d\nend\n",
        &[0, 12000, 12000, 12000],
        378,
    ),
    // Capacities of 1 to 3, nobody there yet.
    (
        "stickysheet 1\nversion 1\nserver a off\nserver b cap 10000\nserver c cap 20000\nserver d cap 30000\n\
            group 12000 a b,c,d\nend\n",
        &[0, 2000, 4000, 6000],
        503,
    ),
    // The same capacities, and at b there are as many as it is to have: 18,000 of 60,000 are 3 of 10.
    (
        "stickysheet 1\nversion 1\nserver a off\nserver b cap 10000\nserver c cap 20000\nserver d cap 30000\n\
            group 9000 a b,c,d\ngroup 3000 b b,c,d\ngroup 3000 c b,c,d\ngroup 3000 d b,c,d\nend\n",
        &[0, 3000, 6000, 9000],
        378,
    ),
    // One server is nearly full: 12,000 of the others' 40,000.
    (
        "stickysheet 1\nversion 1\nserver a off\nserver b cap 10000\nserver c cap 20000\nserver d cap 20000\n\
            group 8000 a b,c,d\ngroup 9800 b b,c,d\ngroup 2000 c b,c,d\ngroup 2000 d b,c,d\nend\n",
        &[0, 9800, 6000, 6000],
        336,
    ),
    // Some pins may go to b and c alone, some to d alone, and the others make up for it.
    (
        "stickysheet 1\nversion 1\nserver a off\nserver b cap 100000\nserver c cap 100000\nserver d cap 100000\n\
            server e cap 100000\ngroup 3000 a b,c\ngroup 2000 a d\ngroup 7000 a b,c,d,e\nend\n",
        &[0, 3000, 3000, 3000, 3000],
        379,
    ),
    // Some pins may go to b and c alone, and fewer to d and e alone.
    (
        "stickysheet 1\nversion 1\nserver a off\nserver b cap 100000\nserver c cap 100000\nserver d cap 100000\n\
            server e cap 100000\ngroup 4000 a b,c\ngroup 1000 a d,e\nend\n",
        &[0, 2000, 2000, 500, 500],
        160,
    ),
    // Many small groups, each of another cost.
    (
        "stickysheet 2\nversion 1\nserver a off\nserver b cap 100000\nserver c cap 100000\nserver d cap 100000\n\
            group 100 a b,c,d 1\ngroup 100 a b,c,d 2\ngroup 100 a b,c,d 3\ngroup 100 a b,c,d 4\ngroup 100 a b,c,d 5\n\
            group 100 a b,c,d 6\ngroup 100 a b,c,d 7\ngroup 100 a b,c,d 8\ngroup 100 a b,c,d 9\ngroup 100 a b,c,d 10\n\
            group 100 a b,c,d 11\ngroup 100 a b,c,d 12\nend\n",
        &[0, 400, 400, 400],
        53,
    ),
    // One server is drained, and one has shrunk to the pins that it has.
    (
        "stickysheet 1\nversion 1\nserver a off\nserver b cap 3000\nserver c cap 10000\nserver d cap 10000\n\
            group 6000 a b,c,d\ngroup 3000 b b,c,d\ngroup 1000 c b,c,d\ngroup 1000 d b,c,d\nend\n",
        &[0, 3000, 4000, 4000],
        253,
    ),
    // There is little room: 19,000 of 20,000.
    (
        "stickysheet 1\nversion 1\nserver a off\nserver b cap 10000\nserver c cap 5000\nserver d cap 5000\n\
            group 9000 a b,c,d\ngroup 6000 b b,c,d\ngroup 4000 c b,c,d\nend\n",
        &[0, 9500, 4750, 4750],
        378,
    ),
];

/// How many pins the plan has at the server.
fn load(plan: &Plan, server: usize) -> u32 {
    plan.rows()
        .iter()
        .filter(|row| row.new_place.is_some_and(|place| place.index() == server))
        .fold(0, |sum: u32, row| sum.saturating_add(row.count))
}

/// The plan of the text's sheet has these loads, or up to so many pins more or fewer.
fn expect_loads(rt: &impl Abort, plan: &Plan, loads: &[u32], within: u32, text: &str) {
    for (server, wanted) in loads.iter().enumerate() {
        let load = load(plan, server);
        assert!(rt;
            load.abs_diff(*wanted) <= within,
            "{load} at {server} of {text}"
        );
    }
}

#[test]
fn pins_that_can_not_stay_are_spread_by_share_of_capacity(rt: HostRuntime) -> Result<(), Fail> {
    for (text, loads, within) in FARMS {
        let sheet = read_sheet(rt.alloc(), text.as_bytes())?;
        let planned = plan(rt.alloc(), &sheet)?;
        assert!(rt; check(&sheet, planned.plan()).is_ok(), "{text}");
        expect_loads(&rt, planned.plan(), *loads, *within, *text);
    }
    Ok(())
}

// Even plans are no longer than they have to be: a group isn't cut into more rows than it has eighths of what a server gets.
#[test]
fn no_plan_has_many_rows_more_than_groups(rt: HostRuntime) -> Result<(), Fail> {
    for (text, loads, _) in FARMS {
        let sheet = read_sheet(rt.alloc(), text.as_bytes())?;
        let rows = plan(rt.alloc(), &sheet)?.plan().rows().len();
        let most = sheet
            .groups()
            .len()
            .saturating_add(loads.len().saturating_mul(8));
        assert!(rt; rows <= most, "{rows} rows of {text}");
    }
    Ok(())
}

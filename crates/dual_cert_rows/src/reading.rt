//! What texts are read as, part by part.

use crate::parts::{GroupRow, ServerRow, are_groups, are_servers, is_server, kind, place_of};
use dual_cert::{PricedServer, read_plan, read_sheet};
use lb_types::Place;
use lb_types_pins::{PinKind, Row};
use std::test::Fail;

/// Texts, with the version, the servers and the groups of their sheets.
const SHEETS: &[(&str, u64, &[ServerRow], &[GroupRow])] = &[
    (
        "stickysheet 1\nversion 0\nserver a cap 2\nend\n",
        0,
        &[(b"a", Some(2))],
        &[],
    ),
    (
        "stickysheet 1\nversion 1\nserver a off\nserver b cap 1\nserver c cap 1\n\
            group 1 a b\ngroup 1 b b,c\nend\n",
        1,
        &[(b"a", None), (b"b", Some(1)), (b"c", Some(1))],
        &[(1, Some(0), &[1], 1), (1, Some(1), &[1, 2], 1)],
    ),
    (
        "stickysheet 1\nversion 1\nserver a off\nserver b cap 1\ngroup 2 a b\nend\n",
        1,
        &[(b"a", None), (b"b", Some(1))],
        &[(2, Some(0), &[1], 1)],
    ),
    (
        "stickysheet 2\nversion 7\nserver a off\nserver b cap 1\nserver c cap 4\n\
            group 3 - c 1\ngroup 1 a - 3\ngroup 2 b b,c 1000\nend\n",
        7,
        &[(b"a", None), (b"b", Some(1)), (b"c", Some(4))],
        &[
            (3, None, &[2], 1),
            (1, Some(0), &[], 3),
            (2, Some(1), &[1, 2], 1000),
        ],
    ),
];

#[test]
fn sheets_are_read(rt: HostRuntime) -> Result<(), Fail> {
    for (text, version, servers, groups) in SHEETS {
        let sheet = read_sheet(rt.alloc(), text.as_bytes())?;
        let is_so = sheet.version() == *version
            && are_servers(sheet.servers(), *servers)
            && are_groups(sheet.groups(), *groups);
        assert!(rt; is_so, "{text}");
    }
    Ok(())
}

fn is_priced(found: &PricedServer, name: &[u8], capacity: Option<u32>, price: u64) -> bool {
    is_server(&found.server, name, capacity) && found.price == price
}

fn is_row(found: &Row, kind: PinKind, new_place: Place, count: u32) -> bool {
    found.kind == kind && found.new_place == new_place && found.count == count
}

#[test]
fn a_plan_is_read(rt: HostRuntime) -> Result<(), Fail> {
    let text =
        "stickyplan 2\nversion 7\nserver a off\nserver b cap 1 price 9\nserver c cap 4 price 0\n\
        row 1 a b b 3\nrow 2 b - b,c 1\nend\n";
    let plan = read_plan(rt.alloc(), text.as_bytes())?;
    let ([a, b, c], [first, second]) = (plan.servers(), plan.rows()) else {
        return Err(Fail::new("the plan has three servers and two rows"));
    };
    assert!(rt; plan.version() == 7);
    assert!(rt; is_priced(a, b"a", None, 0));
    assert!(rt; is_priced(b, b"b", Some(1), 9));
    assert!(rt; is_priced(c, b"c", Some(4), 0));
    assert!(rt; is_row(first, kind(Some(0), &[1], 3), place_of(Some(1)), 1));
    assert!(rt; is_row(second, kind(Some(1), &[1, 2], 1), None, 2));
    Ok(())
}

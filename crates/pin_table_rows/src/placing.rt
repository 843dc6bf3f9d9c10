//! Plans whose moves a table makes. Servers are called `a` and `b`.

use crate::placed;
use crate::rows::{Counted, counts_of};
use crate::sketch::{cost_of, name_of, settings};
use dual_cert::read_plan;
use lb_types::{Moment, ServerId, ServerSet};
use pin_table::{Held, Table};
use std::alloc::{AllocError, Global};
use std::hash::{BuildHasher, BuildHasherDefault, FoldHasher};
use std::process::Abort;
use std::test::Fail;

/// Whether a is usable, as b is, a plan, whether it is one for the pins, and the kinds of pins after it.
struct Row {
    name: &'static str,
    a_is_usable: bool,
    plan: &'static str,
    fits: bool,
    kinds: &'static [Counted],
}

/// The numbers of the pins and their servers, in order of use. Pins of odd numbers want b, the others want no server. Their costs are
/// 1, except for pin 1, which costs 2.
const PINS: &[(u32, u8)] = &[(0, 0), (3, 0), (6, 0), (1, 1), (9, 0)];

/// The kinds of these pins.
const AS_THEY_WERE: &[Counted] = &[(Some(0), 0, 1, 2), (Some(0), 1, 1, 2), (Some(1), 1, 2, 1)];

const ROWS: &[Row] = &[
    Row {
        name: "pins go where they want to be",
        a_is_usable: true,
        plan: "stickyplan 2\nversion 0\nserver a cap 9 price 0\nserver b cap 9 price 0\n\
            row 2 a b b 1\nrow 2 a a a,b 1\nrow 1 b b b 2\nend\n",
        fits: true,
        kinds: &[(Some(0), 0, 1, 2), (Some(1), 1, 1, 2), (Some(1), 1, 2, 1)],
    },
    Row {
        name: "of two pins of one kind one goes",
        a_is_usable: true,
        plan: "stickyplan 2\nversion 0\nserver a cap 9 price 0\nserver b cap 9 price 0\n\
            row 2 a b b 1\nrow 1 a a a,b 1\nrow 1 a b a,b 1\nrow 1 b b b 2\nend\n",
        fits: true,
        kinds: &[
            (Some(0), 0, 1, 1),
            (Some(1), 0, 1, 1),
            (Some(1), 1, 1, 2),
            (Some(1), 1, 2, 1),
        ],
    },
    Row {
        name: "no pin goes where the plan moves none",
        a_is_usable: true,
        plan: "stickyplan 2\nversion 0\nserver a cap 9 price 0\nserver b cap 9 price 0\n\
            row 2 a a b 1\nrow 2 a a a,b 1\nrow 1 b b b 2\nend\n",
        fits: true,
        kinds: AS_THEY_WERE,
    },
    Row {
        name: "all pins leave a server that isn't usable",
        a_is_usable: false,
        plan: "stickyplan 2\nversion 0\nserver a off\nserver b cap 9 price 0\n\
            row 4 a b b 1\nrow 1 b b b 2\nend\n",
        fits: true,
        kinds: &[(Some(1), 0, 1, 2), (Some(1), 1, 1, 2), (Some(1), 1, 2, 1)],
    },
    Row {
        name: "pins go nowhere",
        a_is_usable: false,
        plan: "stickyplan 2\nversion 0\nserver a off\nserver b cap 0 price 0\n\
            row 4 a - b 1\nrow 1 b - b 2\nend\n",
        fits: true,
        kinds: &[(None, 0, 1, 2), (None, 1, 1, 2), (None, 1, 2, 1)],
    },
    Row {
        name: "a plan for other pins sends none",
        a_is_usable: false,
        plan: "stickyplan 2\nversion 0\nserver a off\nserver b cap 9 price 0\n\
            row 3 a b b 1\nrow 2 b b b 2\nend\n",
        fits: false,
        kinds: AS_THEY_WERE,
    },
];

/// Makes the pins in the table, and sends them as the row's plan says.
fn place<S: BuildHasher + Drop>(
    rt: &impl Abort,
    alloc: Global,
    table: &mut Table<S>,
    row: &Row,
) -> Result<(), Fail> {
    make(table)?;
    let plan = read_plan(alloc, row.plan.as_bytes())?;
    let fits = placed(alloc, table, usable(row.a_is_usable), &plan)?;
    let kinds = counts_of(alloc, table)?;
    let found = (fits, kinds.as_slice());
    assert_eq!(rt; found, (row.fits, row.kinds), "{}", row.name);
    assert!(rt; pops_as_used(table, kinds), "{}", row.name);
    Ok(())
}

#[test]
fn moves_of_plans_send_as_many_pins_of_each_kind(rt: HostRuntime) -> Result<(), Fail> {
    for row in ROWS {
        let hasher = BuildHasherDefault::<FoldHasher>::new();
        let mut table = Table::new(rt.alloc(), settings(10, false), hasher);
        place(&rt, rt.alloc(), &mut table, row)?;
    }
    Ok(())
}

fn usable(has_a: bool) -> ServerSet {
    let b = ServerSet::empty().with(ServerId::new(1));
    if has_a { b.with(ServerId::new(0)) } else { b }
}

/// Makes the pins, each a millisecond after the one before.
fn make<S: BuildHasher + Drop>(table: &mut Table<S>) -> Result<(), AllocError> {
    for (place, (number, server)) in PINS.iter().enumerate() {
        let name = name_of(*number);
        if table.uses() >= 1000 || table.find(&name).is_some() {
            continue;
        }
        let now = Moment::from_millis(place as u64);
        if table
            .insert(name, ServerId::new(*server % 128), cost_of(*number), now)
            .is_err()
        {
            return Err(AllocError);
        }
    }
    Ok(())
}

/// Pops all pins: whether they come in their order of use, with their moments, and are of these kinds, as many of each.
fn pops_as_used<S: BuildHasher + Drop>(table: &mut Table<S>, kinds: Vec<Counted>) -> bool {
    let mut kinds = kinds;
    for (place, (number, _)) in PINS.iter().enumerate() {
        if table.uses() >= 1000 {
            return false;
        }
        let Some((name, held)) = table.pop_oldest() else {
            return false;
        };
        let expected = name_of(*number);
        let is_it = name == expected;
        let in_order = is_it && held.last_use.as_millis() == place as u64;
        if !in_order || !take(&mut kinds, name.want.len(), &held) {
            return false;
        }
    }
    table.len() == 0 && kinds.iter().all(|kind| kind.3 == 0)
}

/// Takes one pin out of its kind: whether one was left.
fn take(kinds: &mut [Counted], wants: usize, held: &Held) -> bool {
    let place = held.place.map(|server| server.index());
    for kind in kinds {
        if (kind.0, kind.1, kind.2) == (place, wants, held.cost) && kind.3 > 0 {
            kind.3 -= 1;
            return true;
        }
    }
    false
}

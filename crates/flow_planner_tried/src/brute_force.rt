//! The planner against all assignments of the pins, on small sheets.
//!
//! The enumerations leave out what makes no difference: the order of the servers (their capacities rise, and those that are off come
//! last), and capacities above the number of pins.

use crate::plain_sheet::{PlainKind, PlainSheet, Spot, usable};
use crate::random_sheets::Dice;
use cert_check::check;
use flow_planner::plan;
use std::alloc::{AllocError, Global};
use std::collections::BTreeMap;
use std::process::Abort;
use std::test::Fail;

/// Which digits may follow a list of them.
#[derive(Clone, Copy)]
enum Order {
    Any,
    Rising,
}

/// All lists of `len` digits below a base, in this order.
fn digit_lists(
    alloc: Global,
    base: u8,
    len: usize,
    order: Order,
) -> Result<Vec<Vec<u8>>, AllocError> {
    let mut lists = Vec::new(alloc);
    lists.push(Vec::new(alloc))?;
    for _ in 0..len {
        lists = lists_behind(alloc, &lists, base, order)?;
    }
    Ok(lists)
}

/// Each list with each digit after it.
fn lists_behind(
    alloc: Global,
    lists: &[Vec<u8>],
    base: u8,
    order: Order,
) -> Result<Vec<Vec<u8>>, AllocError> {
    let mut longer = Vec::new(alloc);
    for list in lists {
        let least = match order {
            Order::Any => 0,
            Order::Rising => list.last().copied().unwrap_or(0),
        };
        add_digits(&mut longer, list, least, base)?;
    }
    Ok(longer)
}

/// Adds the list with each digit from the least one on after it.
fn add_digits(
    longer: &mut Vec<Vec<u8>>,
    list: &Vec<u8>,
    least: u8,
    base: u8,
) -> Result<(), AllocError> {
    for digit in least..base {
        let mut digits = list.clone()?;
        digits.push(digit)?;
        longer.push(digits)?;
    }
    Ok(())
}

/// A pin of each kind that there can be: each place, each permitted set, cost 1 and cost 2.
fn kinds(alloc: Global, servers: u8, usable: u8) -> Result<Vec<PlainKind>, AllocError> {
    let mut kinds = Vec::new(alloc);
    for place in 0..servers.saturating_add(1) {
        for permitted in 0..=usable {
            if permitted & usable == permitted {
                for cost in 1..3 {
                    kinds.push(PlainKind {
                        place,
                        permitted,
                        cost,
                    })?;
                }
            }
        }
    }
    Ok(kinds)
}

/// The capacities that digits stand for, where one past the number of pins stands for a server that is off.
fn capacities_of(
    alloc: Global,
    digits: &[u8],
    pins: usize,
) -> Result<Vec<Option<u32>>, AllocError> {
    digits
        .iter()
        .map(|digit| if usize::from(*digit) > pins {
            None
        } else {
            Some(u32::from(*digit))
        })
        .collect(alloc)
}

/// Asserts that the checker accepts the plan for the sheet, and that it does as well as the best of the assignments.
fn assert_best(
    rt: &impl Abort,
    alloc: Global,
    small: &PlainSheet,
    assignments: &[Vec<Spot>],
) -> Result<(), Fail> {
    let sheet = small.sheet(alloc)?;
    let planned = plan(alloc, &sheet)?;
    let pins = small.pins(alloc)?;
    let (Ok(score), Some(best)) = (
        check(&sheet, planned.plan()),
        small.best(&pins, assignments),
    ) else {
        return Err(Fail::new("a plan is accepted, and some assignment is best"));
    };
    let size = small.size();
    let found = (score.pins, score.unplaced, score.cost);
    let wanted = (size, best.unplaced, best.cost);
    assert_eq!(rt;
        (found, planned.pushes() <= size),
        (wanted, true),
        "{pins:?}"
    );
    Ok(())
}

/// The sheet of servers with these rooms, and of a pin of each chosen kind.
fn small_sheet(
    alloc: Global,
    rooms: &[u8],
    kinds: &[PlainKind],
    chosen: &[u8],
) -> Result<PlainSheet, AllocError> {
    let mut small = PlainSheet {
        capacities: capacities_of(alloc, rooms, chosen.len())?,
        groups: BTreeMap::new(alloc),
    };
    for kind in chosen
        .iter()
        .filter_map(|kind| kinds.get(usize::from(*kind)))
    {
        small.add(*kind, 1)?;
    }
    Ok(small)
}

/// Tries all sheets of servers with these rooms and of so many pins, and gives their number.
fn try_rooms(
    rt: &impl Abort,
    alloc: Global,
    rooms: &[u8],
    pins: usize,
    assignments: &[Vec<Spot>],
) -> Result<u64, Fail> {
    let capacities = capacities_of(alloc, rooms, pins)?;
    let kinds = kinds(alloc, (rooms.len() % 256) as u8, usable(&capacities))?;
    let choices = digit_lists(alloc, (kinds.len() % 256) as u8, pins, Order::Rising)?;
    for chosen in &choices {
        let small = small_sheet(alloc, rooms, &kinds, chosen)?;
        assert_best(rt, alloc, &small, assignments)?;
    }
    Ok(choices.len() as u64)
}

/// Tries all sheets of so many servers and pins, and gives their number.
fn try_all(rt: &impl Abort, alloc: Global, servers: u8, pins: usize) -> Result<u64, Fail> {
    let assignments = digit_lists(alloc, servers.saturating_add(1), pins, Order::Any)?;
    let off = (pins.saturating_add(1) % 254) as u8;
    let mut tried = 0u64;
    for rooms in &digit_lists(alloc, off + 1, usize::from(servers), Order::Rising)? {
        tried = tried.saturating_add(try_rooms(rt, alloc, rooms, pins, &assignments)?);
    }
    Ok(tried)
}

#[test]
fn plans_of_all_sheets_of_two_servers_and_four_pins_are_best(rt: HostRuntime) -> Result<(), Fail> {
    let mut tried = 0u64;
    for servers in 0..3 {
        for pins in 0..5 {
            tried = tried.saturating_add(try_all(&rt, rt.alloc(), servers, pins)?);
        }
    }
    // 1, 2, 3, 4 and 5; 2, 20, 118, 500 and 1685; 3, 102, 2055, 27512 and 270201.
    assert_eq!(rt; tried, 302213);
    Ok(())
}

#[test]
fn plans_of_all_sheets_of_three_servers_and_three_pins_are_best(
    rt: HostRuntime,
) -> Result<(), Fail> {
    let mut tried = 0u64;
    for pins in 0..4 {
        tried = tried.saturating_add(try_all(&rt, rt.alloc(), 3, pins)?);
    }
    // 4, 392, 24412 and 978424.
    assert_eq!(rt; tried, 1003232);
    Ok(())
}

/// A sheet of 3 servers and 3 to 5 pins.
fn random_sheet(alloc: Global, dice: &mut Dice) -> Result<PlainSheet, AllocError> {
    let mut small = PlainSheet {
        capacities: Vec::new(alloc),
        groups: BTreeMap::new(alloc),
    };
    for _ in 0..3 {
        let room = dice.roll(4);
        small
            .capacities
            .push(if room == 3 { None } else { Some(room) })?;
    }
    let usable = usable(&small.capacities);
    for _ in 0..dice.roll(3).saturating_add(3) {
        let kind = PlainKind {
            place: dice.digit(4),
            permitted: dice.digit(8) & usable,
            cost: (dice.roll(2).saturating_add(1) % 1000) as u16,
        };
        small.add(kind, 1)?;
    }
    Ok(small)
}

// A seeded sample of the sheets of 3 servers and 3 to 5 pins.
#[test]
fn plans_of_a_sample_of_larger_sheets_are_best(rt: HostRuntime) -> Result<(), Fail> {
    let alloc = rt.alloc();
    let mut assignments = Vec::new(alloc);
    for pins in 0..6 {
        assignments.push(digit_lists(alloc, 4, pins, Order::Any)?)?;
    }
    let mut dice = Dice::new(20261122);
    for _ in 0..100000 {
        let small = random_sheet(alloc, &mut dice)?;
        let Some(own) = assignments.get(small.size() as usize) else {
            return Err(Fail::new("a sheet has at most 5 pins"));
        };
        assert_best(&rt, alloc, &small, own)?;
    }
    Ok(())
}

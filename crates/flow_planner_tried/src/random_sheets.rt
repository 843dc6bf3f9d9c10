//! The planner on a seeded sample of sheets of up to 8 servers and 40 groups.

use crate::plain_sheet::{PlainKind, PlainSheet, usable};
use cert_check::check;
use flow_planner::plan;
use std::alloc::{AllocError, Global};
use std::collections::BTreeMap;
use std::process::Abort;
use std::test::Fail;

/// Numbers that look random and are the same in each run.
#[derive(Drop)]
pub(crate) struct Dice {
    state: u64,
}

impl Dice {
    pub(crate) fn new(seed: u64) -> Self {
        Dice { state: seed }
    }

    /// A number below `sides`.
    pub(crate) fn roll(&mut self, sides: u32) -> u32 {
        self.state = self
            .state
            .wrapping_mul(6364136223846793005)
            .wrapping_add(1442695040888963407);
        ((self.state >> 33)
            .checked_rem(u64::from(sides))
            .unwrap_or(0)
            % 4294967296) as u32
    }

    /// A small number below `sides`.
    pub(crate) fn digit(&mut self, sides: u32) -> u8 {
        (self.roll(sides) % 256) as u8
    }
}

/// The room of a server: off, none, little or much.
fn random_capacity(dice: &mut Dice) -> Option<u32> {
    match dice.roll(8) {
        0 => None,
        1 => Some(0),
        2 | 3 => Some(dice.roll(10)),
        _ => Some(dice.roll(400)),
    }
}

/// A sheet of up to 8 servers and 40 groups, of pins that cost up to 1, 3 or 1000.
fn random_sheet(alloc: Global, dice: &mut Dice) -> Result<PlainSheet, AllocError> {
    let mut plain = PlainSheet {
        capacities: Vec::new(alloc),
        groups: BTreeMap::new(alloc),
    };
    let servers = dice.roll(9);
    for _ in 0..servers {
        plain.capacities.push(random_capacity(dice))?;
    }
    let usable = usable(&plain.capacities);
    let dearest = [1, 3, 1000][usize::from(dice.digit(3) % 3)];
    for _ in 0..dice.roll(41) {
        let kind = PlainKind {
            place: dice.digit(servers.saturating_add(1)),
            permitted: dice.digit(256) & usable,
            cost: (dice.roll(dearest).saturating_add(1) % 1001) as u16,
        };
        let count = dice.roll(60).saturating_add(1);
        plain.add(kind, count)?;
    }
    Ok(plain)
}

/// Plans the sheet, which the check has to accept, with at most one push a pin, and returns how many pushes it took.
fn pushes_of(rt: &impl Abort, alloc: Global, plain: &PlainSheet) -> Result<u64, Fail> {
    let sheet = plain.sheet(alloc)?;
    let planned = plan(alloc, &sheet)?;
    let Ok(score) = check(&sheet, planned.plan()) else {
        return Err(Fail::new("a plan is accepted"));
    };
    let found = (score.pins, planned.pushes() <= plain.size());
    assert_eq!(rt; found, (plain.size(), true));
    Ok(planned.pushes())
}

#[test]
fn plans_of_random_sheets_are_accepted(rt: HostRuntime) -> Result<(), Fail> {
    let mut dice = Dice::new(1000003);
    let mut pushes = 0u64;
    for _ in 0..3000 {
        let plain = random_sheet(rt.alloc(), &mut dice)?;
        pushes = pushes.saturating_add(pushes_of(&rt, rt.alloc(), &plain)?);
    }
    // The sample isn't of sheets alone that need no push.
    assert!(rt; pushes > 3000);
    Ok(())
}

//! All small farms, one after another.
//!
//! What makes no difference is left out, and no other farm:
//! - the order of the pins (their kinds rise);
//! - the order of the servers (the capacities rise, and the servers that aren't usable come last);
//! - two wishes of a pin with the same permitted servers;
//! - capacities above the number of pins.

use crate::farm::{Farm, SmallPin};
use crate::rising::Rising;
use std::alloc::{AllocError, Global};

/// Which servers a pin may go to.
#[derive(Clone, Copy, Debug, PartialEq, Eq)]
pub enum Permitted {
    /// Those that a pin of a view may go to: at least one where one is usable.
    OfView,
    /// Any of the usable ones, also none.
    Any,
}

/// Which farms there are: so many servers and pins, and of these each `slices`-th one, from the one of number `slice` on.
#[derive(Clone, Copy, Debug)]
pub struct Bounds {
    pub permitted: Permitted,
    pub servers: usize,
    pub pins: usize,
    pub slice: u64,
    pub slices: u64,
}

/// One of the farms.
#[derive(Debug, Drop)]
pub struct Farms {
    bounds: Bounds,
    rooms: Rising,
    kinds: Vec<SmallPin>,
    chosen: Rising,
    farm: Farm,
    /// How many farms must be passed over until the next one of the slice.
    wait: u64,
}

impl Farms {
    /// The first farm of these bounds, of the slice or not.
    pub fn new(alloc: Global, bounds: Bounds) -> Result<Farms, AllocError> {
        let mut farms = Farms {
            bounds,
            rooms: Rising::new(alloc, bounds.pins.saturating_add(2), bounds.servers)?,
            kinds: Vec::new(alloc),
            chosen: Rising::new(alloc, 0, 0)?,
            farm: Farm::new(alloc),
            wait: bounds.slice,
        };
        farms.build(alloc)?;
        Ok(farms)
    }

    /// Makes the kinds and the first choice of them for the servers' room.
    fn build(&mut self, alloc: Global) -> Result<(), AllocError> {
        self.farm.capacities.clear();
        for room in self.rooms.numbers() {
            let capacity = if *room > self.bounds.pins {
                None
            } else {
                Some((*room % 256) as u8)
            };
            self.farm.capacities.push(capacity)?;
        }
        self.kinds = kinds(alloc, &self.farm, self.bounds.permitted)?;
        self.chosen = Rising::new(alloc, self.kinds.len(), self.bounds.pins)?;
        Ok(())
    }

    /// The farm, if it is of the slice.
    pub fn current(&mut self) -> Result<Option<&Farm>, AllocError> {
        if self.wait > 0 {
            self.wait -= 1;
            return Ok(None);
        }
        self.wait = self.bounds.slices.saturating_sub(1);
        self.farm.pins.clear();
        for number in self.chosen.numbers() {
            if let Some(kind) = self.kinds.get(*number) {
                self.farm.pins.push(*kind)?;
            }
        }
        Ok(Some(&self.farm))
    }

    /// Goes on to the next farm. False where there is none.
    pub fn advance(&mut self, alloc: Global) -> Result<bool, AllocError> {
        if self.chosen.advance() {
            return Ok(true);
        }
        if !self.rooms.advance() {
            return Ok(false);
        }
        self.build(alloc)?;
        Ok(true)
    }
}

/// A pin of each kind that there can be, in rising order: each place, each permitted set, cost 1 and cost 2.
fn kinds(alloc: Global, farm: &Farm, permitted: Permitted) -> Result<Vec<SmallPin>, AllocError> {
    let usable = farm.usable();
    let mut kinds = Vec::new(alloc);
    for place in 0..=(farm.capacities.len() % 256) as u8 {
        for set in 0..=usable {
            if set & usable == set && (set != 0 || usable == 0 || permitted == Permitted::Any) {
                add_kinds(&mut kinds, place, set)?;
            }
        }
    }
    Ok(kinds)
}

fn add_kinds(kinds: &mut Vec<SmallPin>, place: u8, permitted: u8) -> Result<(), AllocError> {
    for cost in 1..3 {
        kinds.push(SmallPin {
            place,
            permitted,
            cost,
        })?;
    }
    Ok(())
}

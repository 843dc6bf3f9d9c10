//! Every assignment of a farm's pins, lawful or not.

use crate::farm::{Farm, SmallPin, Spot};
use std::alloc::{AllocError, Global};

/// One of the assignments. Those that differ only in which pins of one kind go where have one plan. One of them is here: the one in
/// which later pins of a kind go to no lower spots.
#[derive(Debug, Drop)]
pub(crate) struct Every {
    spots: Vec<Spot>,
}

impl Every {
    /// The first one, which leaves each pin without a server.
    pub(crate) fn new(alloc: Global, farm: &Farm) -> Result<Every, AllocError> {
        Ok(Every {
            spots: vec![in alloc; 0; farm.pins.len()]?,
        })
    }

    pub(crate) fn spots(&self) -> &[Spot] {
        &self.spots
    }

    /// Goes on to the next one: the last pin that can goes one spot further, and those after it as low as they may. False
    /// where there is none.
    pub(crate) fn advance(&mut self, farm: &Farm) -> bool {
        let servers = farm.capacities.len();
        let grows = |spot: &Spot| usize::from(*spot) < servers;
        let Some(at) = self.spots.iter().rposition(grows) else {
            return false;
        };
        let mut before: Option<(SmallPin, Spot)> = None;
        for (place, (spot, pin)) in self.spots.iter_mut().zip(&farm.pins).enumerate() {
            if place == at {
                *spot = spot.saturating_add(1);
            } else if place > at {
                *spot = least_spot(*pin, before);
            }
            before = Some((*pin, *spot));
        }
        true
    }
}

/// The lowest spot of a pin after this one.
fn least_spot(pin: SmallPin, before: Option<(SmallPin, Spot)>) -> Spot {
    match before {
        Some((kind, spot)) if kind == pin => spot,
        _ => 0,
    }
}

//! The best of all assignments of a farm's pins, by trying each.

use crate::farm::{Farm, PINS, SERVERS, SmallPin, Spot};

/// How well a lawful assignment does: fewer pins without a server are better, and of as many the less cost of moves.
#[derive(Clone, Copy, Debug, PartialEq, Eq, PartialOrd, Ord)]
pub(crate) struct Judged {
    pub unplaced: u64,
    pub cost: u64,
}

impl Judged {
    /// As one number, where a pin without a server costs this much.
    fn total(self, unplaced_cost: u64) -> u64 {
        self.unplaced
            .saturating_mul(unplaced_cost)
            .saturating_add(self.cost)
    }
}

/// Where the pins go, one after another, and how well that does. After the last pin there are zeros.
#[derive(Clone, Copy, Debug)]
pub(crate) struct Found {
    pub judged: Judged,
    pub spots: [Spot; PINS],
}

/// What a try of all assignments has found so far.
#[derive(Clone, Copy, Debug)]
pub(crate) struct Search {
    /// The first of the best assignments, where they are ordered by the spot of the first pin, then of the second, and so on.
    pub best: Option<Found>,
    /// The first of the best of those that aren't best.
    pub next: Option<Found>,
    /// How well the best assignment does that needs one place more at a server than there is, for each of the servers.
    roomier: [Option<Judged>; SERVERS],
}

/// Spots for some of the pins.
#[derive(Clone, Copy)]
struct Partial {
    found: Found,
    /// How many pins have a spot.
    len: usize,
    /// The room that is left at each server.
    room: [u8; SERVERS],
    /// The server that needs one place more than there is, as a spot. There is at most one.
    over: Spot,
}

/// Tries all assignments of the farm's pins.
pub(crate) fn try_all(farm: &Farm) -> Search {
    let mut search = Search {
        best: None,
        next: None,
        roomier: [None; SERVERS],
    };
    let mut room = [0; SERVERS];
    for (left, capacity) in room.iter_mut().zip(&farm.capacities) {
        *left = capacity.unwrap_or(0);
    }
    let nobody = Partial {
        found: Found {
            judged: Judged {
                unplaced: 0,
                cost: 0,
            },
            spots: [0; PINS],
        },
        len: 0,
        room,
        over: 0,
    };
    search.try_rest(&farm.pins, nobody);
    search
}

impl Search {
    /// Tries all assignments that begin as this one, where these pins have no spot yet.
    fn try_rest(&mut self, pins: &[SmallPin], begun: Partial) {
        let Some((pin, rest)) = pins.split_first() else {
            self.judge(&begun);
            return;
        };
        for spot in 0..4 {
            if pin.may_go(spot)
                && let Some(longer) = begun.with(pin, spot)
            {
                self.try_rest(rest, longer);
            }
        }
    }

    /// Takes note of an assignment of all pins.
    fn judge(&mut self, all: &Partial) {
        let judged = all.found.judged;
        if let Some(more) = all.over.checked_sub(1) {
            if let Some(least) = self.roomier.get_mut(usize::from(more)) {
                *least = Some(least.map_or(judged, |least| least.min(judged)));
            }
        } else if self.best.is_none_or(|best| judged < best.judged) {
            self.next = self.best;
            self.best = Some(all.found);
        } else if self.best.is_none_or(|best| judged != best.judged)
            && self.next.is_none_or(|next| judged < next.judged)
        {
            self.next = Some(all.found);
        }
    }

    /// For each server, how much less the best assignment would cost if there were one place more.
    pub(crate) fn prices(&self, unplaced_cost: u64) -> [u64; SERVERS] {
        let mut prices = [0; SERVERS];
        let Some(best) = &self.best else {
            return prices;
        };
        let least = best.judged.total(unplaced_cost);
        for (price, roomier) in prices.iter_mut().zip(&self.roomier) {
            if let Some(judged) = roomier {
                *price = least.saturating_sub(judged.total(unplaced_cost));
            }
        }
        prices
    }
}

impl Partial {
    /// With the next pin at this spot, unless two places more than there are would be needed.
    fn with(mut self, pin: &SmallPin, spot: Spot) -> Option<Partial> {
        if let Some(server) = spot.checked_sub(1) {
            let left = self.room.get_mut(usize::from(server))?;
            if *left > 0 {
                *left -= 1;
            } else if self.over == 0 {
                self.over = spot;
            } else {
                return None;
            }
        } else {
            self.found.judged.unplaced = self.found.judged.unplaced.saturating_add(1);
        }
        if pin.place != spot {
            self.found.judged.cost = self.found.judged.cost.saturating_add(u64::from(pin.cost));
        }
        let len = self.len;
        *self.found.spots.get_mut(len)? = spot;
        self.len = len.saturating_add(1);
        Some(self)
    }
}

//! What the checker and the planner say of a farm, against all assignments of its pins.

use crate::assignments::{Judged, try_all};
use crate::draft::Draft;
use crate::every::Every;
use crate::farm::{Farm, PINS, SERVERS, SmallPin, Spot, listed, place_of, set_of};
use cert_check::{CheckFault, check};
use dual_cert_plan::{Plan, Server, Sheet};
use flow_planner::plan;
use lb_types_pins::Row;
use pin_groups::group;
use pin_groups_spread::{PlainPin, numbered_view};
use pin_set::Score;
use std::alloc::{AllocError, Global};

/// The most pins of a view of which each assignment is judged. Of more pins two are: a best one and a next best one.
const EACH_IS_JUDGED: usize = 4;

/// A farm's view as the checker sees it, with what its assignments are judged by.
#[derive(Clone, Copy)]
struct Case<'a> {
    farm: &'a Farm,
    sheet: &'a Sheet,
    /// How well a best assignment does.
    best: Judged,
    /// The prices that show that.
    prices: &'a [u64],
}

/// How many plans the checker judged, each as it has to: of assignments of the pins of the farm's view, at prices from 0 to
/// two more than going without a server costs. None where it judged one otherwise, or where there are no such prices.
pub fn view_agrees(alloc: Global, farm: &Farm) -> Result<Option<u64>, AllocError> {
    let found = try_all(farm);
    let (Some(sheet), Some(best)) = (sheet_of_view(alloc, farm)?, &found.best) else {
        return Ok(None);
    };
    let unplaced_cost = farm.unplaced_cost();
    let prices = found.prices(unplaced_cost);
    let most = unplaced_cost.saturating_add(2);
    if prices.iter().any(|price| *price > most) {
        return Ok(None);
    }
    let case = Case {
        farm,
        sheet: &sheet,
        best: best.judged,
        prices: &prices,
    };
    if farm.pins.len() <= EACH_IS_JUDGED {
        return case.each_agrees(alloc);
    }
    let mut plans = 0u64;
    for judged in [found.best, found.next].iter().flatten() {
        if !case.agrees(alloc, &judged.spots)? {
            return Ok(None);
        }
        plans = plans.saturating_add(1);
    }
    Ok(Some(plans))
}

impl Case<'_> {
    /// How many plans the checker judged, of all assignments, each as it has to.
    fn each_agrees(&self, alloc: Global) -> Result<Option<u64>, AllocError> {
        let mut every = Every::new(alloc, self.farm)?;
        let mut plans = 0u64;
        for _ in 0..u64::MAX {
            if !self.agrees(alloc, every.spots())? {
                return Ok(None);
            }
            plans = plans.saturating_add(1);
            if !every.advance(self.farm) {
                break;
            }
        }
        Ok(Some(plans))
    }

    /// Whether the checker says what it has to of the plan of this assignment.
    fn agrees(&self, alloc: Global, spots: &[Spot]) -> Result<bool, AllocError> {
        let servers = self.sheet.servers();
        let Some(plan) = plan_of(alloc, servers, &self.farm.pins, spots, self.prices)? else {
            return Ok(false);
        };
        Ok(check(self.sheet, &plan) == self.due(spots))
    }

    /// What the checker has to say of the plan of an assignment, by the rules. A pin goes only where it may, and no server takes more
    /// pins than it has room for. Of the others those alone are shown best that do as well as a best one.
    fn due(&self, spots: &[Spot]) -> Result<Score, CheckFault> {
        let mut moves = self.farm.pins.iter().zip(spots);
        if !moves.all(|(pin, spot)| pin.may_go(*spot)) {
            return Err(CheckFault::NotPermitted);
        }
        if !self.farm.has_room(spots) {
            return Err(CheckFault::OverCapacity);
        }
        let score = score(self.farm, spots);
        let judged = Judged {
            unplaced: score.unplaced,
            cost: score.cost,
        };
        if judged == self.best {
            Ok(score)
        } else {
            Err(CheckFault::NotShown)
        }
    }
}

/// One plan, if the checker accepts the planner's plan for the farm's sheet, and the plan does as well as a best assignment.
pub fn sheet_agrees(alloc: Global, farm: &Farm) -> Result<Option<u64>, AllocError> {
    let found = try_all(farm);
    let (Some(sheet), Some(best)) = (sheet_of(alloc, farm)?, &found.best) else {
        return Ok(None);
    };
    let planned = plan(alloc, &sheet)?;
    let Ok(score) = check(&sheet, planned.plan()) else {
        return Ok(None);
    };
    let pins = farm.pins.len() as u64;
    let agrees = score.pins == pins
        && score.unplaced == best.judged.unplaced
        && score.cost == best.judged.cost
        && planned.pushes() <= pins;
    Ok(agrees.then_some(1))
}

/// The score of an assignment, counted pin by pin.
fn score(farm: &Farm, spots: &[Spot]) -> Score {
    let mut score = Score {
        pins: 0,
        unplaced: 0,
        moved: 0,
        cost: 0,
    };
    for (pin, spot) in farm.pins.iter().zip(spots) {
        score.pins = score.pins.saturating_add(1);
        score.unplaced = score.unplaced.saturating_add(u64::from(*spot == 0));
        if pin.place != *spot {
            score.moved = score.moved.saturating_add(1);
            score.cost = score.cost.saturating_add(u64::from(pin.cost));
        }
    }
    score
}

/// The sheet of the farm's view.
fn sheet_of_view(alloc: Global, farm: &Farm) -> Result<Option<Sheet>, AllocError> {
    let usable = farm.usable();
    let capacities: Vec<u32> = farm
        .capacities
        .iter()
        .map(|capacity| capacity.map_or(3, u32::from))
        .collect(alloc)?;
    let pins: Vec<PlainPin> = farm
        .pins
        .iter()
        .map(|pin| pin.plain(usable))
        .collect(alloc)?;
    let Some(view) = numbered_view(alloc, set_of(usable), &capacities, &pins)? else {
        return Ok(None);
    };
    let sheet = group(alloc, &view, 0)?;
    Ok(Some(sheet))
}

/// The farm's sheet, which is that of a plan that leaves each pin without a server.
fn sheet_of(alloc: Global, farm: &Farm) -> Result<Option<Sheet>, AllocError> {
    let servers = listed(alloc, farm)?;
    let spots = [0; PINS];
    let prices = [0; SERVERS];
    let Some(plan) = plan_of(alloc, &servers, &farm.pins, &spots, &prices)? else {
        return Ok(None);
    };
    let sheet = plan.sheet(alloc)?;
    Ok(Some(sheet))
}

/// The plan that sends each of the pins to its spot, at these prices. Pins of one kind stand together.
fn plan_of(
    alloc: Global,
    servers: &[Server],
    pins: &[SmallPin],
    spots: &[Spot],
    prices: &[u64],
) -> Result<Option<Plan>, AllocError> {
    let mut draft = Draft::new(alloc);
    for (server, price) in servers.iter().zip(prices) {
        if !draft.add_server(*server, *price)? {
            return Ok(None);
        }
    }
    if !add_rows(&mut draft, pins, spots)? {
        return Ok(None);
    }
    Ok(Some(draft.into_plan()))
}

/// Adds a row for each run of pins of one kind that go to one spot.
fn add_rows(draft: &mut Draft, pins: &[SmallPin], spots: &[Spot]) -> Result<bool, AllocError> {
    let mut begun: Option<Row> = None;
    for (pin, spot) in pins.iter().zip(spots) {
        let mut row = Row {
            kind: pin.kind(),
            new_place: place_of(*spot),
            count: 1,
        };
        if let Some(last) = begun {
            if last.kind == row.kind && last.new_place == row.new_place {
                row.count = last.count.saturating_add(1);
            } else if !draft.add_row(last)? {
                return Ok(false);
            }
        }
        begun = Some(row);
    }
    match begun {
        Some(last) => draft.add_row(last),
        None => Ok(true),
    }
}

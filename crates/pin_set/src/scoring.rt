ghost use Rattle.std.specs.Prelude.{◌≡◌, ℕ, ◌≤◌, length, map, All, is_none, count_by};
ghost use Rattle.lb_types.specs.declared.limits.TheConstants.{MAX_COST, MAX_PINS};
ghost use Rattle.pin_set.specs.Views.{kind_of, kinds_of};
ghost use Rattle.pin_set.specs.Assignments.{unplaced, moved, spent};
ghost use Rattle.pin_set.specs.Rows.{score_of};

use crate::{Pin, Score, View};
use lb_types::Place;

/// The score of an assignment: the i-th pin of the view goes to the i-th place. Time grows with the pins; no memory.
pub fn score(view: &View, places: &[Place]) -> Score
    requires { length places.now ≡ length view.now.pins }
    ensures { result ≡ score_of (kinds_of view.now) places.now }
{
    let pins = view.pins();
    Score {
        pins: pins.len() as u64,
        unplaced: unplaced(places),
        moved: moved(pins, places),
        cost: spent(pins, places),
    }
}

fn unplaced(places: &[Place]) -> u64
    ensures { result ≡ unplaced places.now }
{
    places.iter().filter(|place| place.is_none()).count() as u64
}

/// How many pins change their place. Which servers are usable makes no difference to that.
fn moved(pins: &[Pin], places: &[Place]) -> u64
    requires { length places.now ≡ length pins.now }
    ensures { (usable : ℕ) → result ≡ moved (map (kind_of usable) pins.now) places.now }
{
    let mut moved = 0;
    for (i, pin) in pins.iter().enumerate() {
        if pin.place != places[i] {
            moved += 1;
        }
    }
    moved
}

/// What the pins that change their place cost together.
fn spent(pins: &[Pin], to: &[Place]) -> u64
    requires same { length to.now ≡ length pins.now }
    requires few { length pins.now ≤ MAX_PINS }
    requires costs { All (λ pin. pin.cost ≤ MAX_COST) pins.now }
    ensures { (usable : ℕ) → result ≡ spent (map (kind_of usable) pins.now) to.now }
{
    let mut spent = 0;
    for (i, pin) in pins.iter().enumerate() {
        if pin.place != to[i] {
            spent += u64::from(pin.cost);
        }
    }
    spent
}

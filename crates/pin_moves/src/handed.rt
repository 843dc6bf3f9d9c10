ghost use Rattle.std.specs.Prelude.{◌≡◌, ℕ, ◌+◌, ◌<◌, ◌≤◌, true, IsTrue, All, AllPairs, length, slice_index_or};
ghost use Rattle.pin_moves.specs.declared.a_move.Move.{Move as AnyMove};
ghost use Rattle.pin_moves.specs.Handed.{AreHandedInOrder};
ghost use Rattle.pin_moves.specs.Moves.{moved_pins, move_before, moved_with, pins_of, IsHandedOut, NothingIsLeft};

use crate::Move;
use crate::hints::{Hints, slot_of};
use lb_types::{Place, ServerSet};
use lb_types_pins::PinKind;
use std::marker::Model;

/// Moves that are handed out pin by pin: where the pins of each place, wanted servers and cost are still to go, and how many.
#[derive(Debug, Drop)]
pub struct Moving {
    left: Vec<Move>,
    hints: Hints,
}

impl Model for Moving {
    ghost use Rattle.std.specs.Prelude.{List};
    ghost use Rattle.pin_moves.specs.declared.a_move.Move.{Move as AnyMove};
    ghost use Rattle.pin_moves.specs.Handed.{AreHandedInOrder};

    ghost Value = { List AnyMove };

    ghost view = { λ m. m.left.items };

    ghost invariant = { λ m. AreHandedInOrder m.left.items };
}

impl Moving {
    /// All these moves are still to be made. It allocates nothing.
    pub fn new(moves: Vec<Move>) -> Self
        requires rising { AllPairs (λ a b. move_before a b ≡ true) moves.items }
        requires some { All (λ m. 1 ≤ m.count) moves.items }
        ensures { result ≡ moves.items }
    {
        Moving {
            left: moves,
            hints: Hints::none(),
        }
    }

    /// The moves that are left. Some may have no pins left.
    pub fn left(&self) -> &[Move]
        ensures { result.now ≡ self.now }
    {
        &self.left
    }

    /// Where one more of the pins of this place, these wanted servers and this cost goes, of which one has to be left. It allocates
    /// nothing. Mostly it costs a look at two moves. It costs one binary search among the moves where pins of a kind are asked for the
    /// first time, or where those of another kind with its hash were looked up in between.
    pub fn next(&mut self, place: Place, want: ServerSet, cost: u16) -> Place
        requires { 1 ≤ moved_with self.old place want cost }
        ensures { IsHandedOut place want cost result self.old self.new }
    {
        let pins = PinKind {
            place,
            permitted: want,
            cost,
        };
        let slot = slot_of(&pins);
        let at = first_left(&self.left, self.hints.get(slot), &pins);
        self.hints.set(slot, at);
        let next = &mut self.left[at];
        next.count -= 1;
        next.to
    }
}

/// The first move of these pins that has some left. The hint may be wrong.
fn first_left(left: &[Move], hint: usize, pins: &PinKind) -> usize
    requires ordered { AreHandedInOrder left.now }
    requires some { 1 ≤ moved_with left.now pins.now.place pins.now.permitted pins.now.cost }
    ensures within { result < length left.now }
    ensures pins { (d : AnyMove) → moved_pins (slice_index_or left.now result d) ≡ pins.now }
    ensures some { (d : AnyMove) → 1 ≤ (slice_index_or left.now result d).count }
    ensures first { (k : ℕ) (d : AnyMove) → k < result → moved_pins (slice_index_or left.now k d) ≡ pins.now
        → (slice_index_or left.now k d).count ≡ 0 }
{
    if is_first_left(left, hint, pins) {
        return hint;
    }
    left.partition_point(|m| m.is_passed(pins))
}

/// Whether this is the first move of these pins that has some left.
fn is_first_left(left: &[Move], at: usize, pins: &PinKind) -> bool
    requires ordered { AreHandedInOrder left.now }
    requires some { 1 ≤ moved_with left.now pins.now.place pins.now.permitted pins.now.cost }
    ensures within { IsTrue result → at < length left.now }
    ensures pins { IsTrue result → (d : AnyMove) → moved_pins (slice_index_or left.now at d) ≡ pins.now }
    ensures some { IsTrue result → (d : AnyMove) → 1 ≤ (slice_index_or left.now at d).count }
    ensures first { IsTrue result → (k : ℕ) (d : AnyMove) → k < at
        → moved_pins (slice_index_or left.now k d) ≡ pins.now → (slice_index_or left.now k d).count ≡ 0 }
{
    if at >= left.len() || left[at].is_passed(pins) {
        return false;
    }
    at == 0 || left[at - 1].is_passed(pins)
}

/// Where no pins of any place, wanted servers and cost are left, none of any kind of a plan are to go anywhere.
pub fn nothing_is_left()
    ensures { NothingIsLeft }
{}

ghost use Rattle.std.specs.Prelude.{◌≡◌, ℕ, Bool, List, ◌≤◌, ◌++◌, ◌∷◌, []};
ghost use Rattle.rise_fall.specs.Health.{Base, fresh, forced, is_up, flip_between, StandsFor};
ghost use Rattle.rise_fall.specs.Tally.{needed};

use crate::Flip;
use std::marker::Model;

/// The most that the settings `rise` and `fall` may be, in results in a row. The least is 1.
pub const MAX_STREAK: u64 = 1000;

/// The health of one checked server, under its settings `rise` and `fall`.
///
/// It allocates nothing, and each call is a few machine instructions.
#[derive(Clone, Copy, Debug, PartialEq, Eq)]
pub struct Health {
    rise: u16,
    fall: u16,
    up: bool,
    /// How many results in a row, up to the last one, speak against `up`.
    against: u16,
}

impl Model for Health {
    ghost use Rattle.rise_fall.specs.Tally.{Tally, IsTally};

    ghost Value = { Tally };

    ghost view = { λ h. record { rise = h.rise; fall = h.fall; up = h.up; against = h.against } };

    ghost invariant = { λ h. IsTally h.rise h.fall h.up h.against };

    ghost inverse = { λ t. record { rise = t.rise; fall = t.fall; up = t.up; against = t.against } };
}

impl Health {
    /// The health of a server at the start: it counts as up, and is one failure from down.
    ///
    /// `rise` successes in a row bring a server up and `fall` failures in a row bring it down; both are 1 to 1000.
    pub fn new(rise: u16, fall: u16) -> Self
        requires rise_from { 1 ≤ rise }
        requires rise_to { rise ≤ MAX_STREAK }
        requires fall_from { 1 ≤ fall }
        requires fall_to { fall ≤ MAX_STREAK }
        ensures { StandsFor result rise fall fresh [] }
    {
        Health {
            rise,
            fall,
            up: true,
            against: fall - 1,
        }
    }

    /// Takes the result of one more check, and returns what it changed.
    pub fn take(&mut self, ok: bool) -> Flip
        ensures added { (rise fall : ℕ) → (base : Base) → (results : List Bool)
            → StandsFor self.old rise fall base results
            → StandsFor self.new rise fall base (results ++ ok ∷ []) }
        ensures change { result ≡ flip_between self.old.up self.new.up }
    {
        if ok == self.up {
            self.against = 0;
            return Flip::Stays;
        }
        if self.against + 1 < self.needed() {
            self.against += 1;
            return Flip::Stays;
        }
        self.up = ok;
        self.against = 0;
        if ok { Flip::WentUp } else { Flip::WentDown }
    }

    /// Makes the server count as up or as down, as if all the results that this needs had come.
    pub fn force(&mut self, up: bool)
        ensures { StandsFor self.new self.old.rise self.old.fall (forced up) [] }
    {
        self.up = up;
        self.against = 0;
    }

    /// Makes the health what it was at the start, as when a server leaves maintenance.
    pub fn rewarm(&mut self)
        ensures { StandsFor self.new self.old.rise self.old.fall fresh [] }
    {
        *self = Health::new(self.rise, self.fall);
    }

    /// Whether the server counts as up.
    pub fn is_up(&self) -> bool
        ensures exact { result ≡ self.now.up }
        ensures by_results { (rise fall : ℕ) → (base : Base) → (results : List Bool)
            → StandsFor self.now rise fall base results
            → result ≡ is_up rise fall base results }
    {
        self.up
    }

    /// How many results in a row turn the server as it counts now.
    fn needed(&self) -> u16
        ensures exact { result ≡ needed self.now.rise self.now.fall self.now.up }
    {
        if self.up { self.fall } else { self.rise }
    }
}

ghost use Rattle.std.specs.Prelude.{◌≡◌, ◌∷◌, [], ℕ, List, Option};
ghost use Rattle.lb_desk_ports.specs.Calls.{Grows};

use lb_types::Moment;

/// Gives the moments of requests, and lets time pass.
pub trait Clock<R> {
    /// The moments that were returned, in their order, as far as they are recorded.
    ghost told: { Self → Option (List ℕ) };

    /// The milliseconds of each pause, in their order, as far as they are recorded.
    ghost pauses: { Self → Option (List ℕ) };

    /// The moment now. A clock that can't be read returns the moment that it returned last, and 0 at first.
    fn now(&mut self, rt: &R) -> Moment
        ensures told { Grows (told self.old) (told self.new) (result ∷ []) }
        ensures pauses { pauses self.new ≡ pauses self.old };

    /// Lets so many milliseconds pass.
    fn pause(&mut self, rt: &R, millis: u64)
        ensures pauses { Grows (pauses self.old) (pauses self.new) (millis ∷ []) }
        ensures told { told self.new ≡ told self.old };
}

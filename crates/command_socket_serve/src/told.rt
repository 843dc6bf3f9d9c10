ghost use Rattle.std.specs.Prelude.{◌∷◌, [], ℕ, List, Option};
ghost use Rattle.lb_desk_ports.specs.Calls.{Grows};

/// What receives reports of changes to backends, such as their planners.
pub trait Told {
    /// The backends that were reported, by their places among the configuration's and in the order of the calls, as far as they are
    /// recorded.
    ghost told: { Self → Option (List ℕ) };

    /// Reports that an operator's change was made at the backend at this place.
    fn changed(&mut self, backend: usize)
        ensures { Grows (told self.old) (told self.new) (backend ∷ []) };
}

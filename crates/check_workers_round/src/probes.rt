ghost use Rattle.std.specs.Prelude.{◌≡◌, [], ◌∷◌, ℕ, Bool, true, false, Some, List, Option, slice_get, slice_set};
ghost use Rattle.std.specs.Option.{option_to_list};
ghost use Rattle.lb_desk_ports.specs.Calls.{Grows};
ghost use Rattle.check_workers_round.specs.Probing.{Ends};

use lb_types::ServerId;

/// What came of a probe: whether the server is well.
#[derive(Clone, Copy, Debug, PartialEq, Eq, Hash)]
pub struct Probed {
    pub server: ServerId,
    pub ok: bool,
}

/// What probes the servers of a backend, many of them at once.
pub trait Probes {
    ghost use Rattle.check_workers_round.specs.declared.probes.Probed.{Probed};

    /// For each server, whether a probe of it is under way.
    ghost under_way: { Self → List Bool };

    /// The servers whose probes were begun, in their order, as far as they are recorded.
    ghost begun: { Self → Option (List ℕ) };

    /// The probes that ended, in their order, as far as they are recorded.
    ghost ended: { Self → Option (List Probed) };

    /// Whether a probe of the server is under way.
    fn is_under_way(&self, server: ServerId) -> bool
        ensures { slice_get (under_way self.now) server ≡ Some result };

    /// Begins a probe of the server, and doesn't wait for it. Connecting, sending and reading together keep to one limit of time.
    fn begin(&mut self, server: ServerId)
        requires { slice_get (under_way self.old) server ≡ Some false }
        ensures under_way { under_way self.new ≡ slice_set (under_way self.old) server true }
        ensures begun { Grows (begun self.old) (begun self.new) (server ∷ []) }
        ensures ended { ended self.new ≡ ended self.old };

    /// A probe that was under way and has ended, with its answer. Where none has, it waits for one, at most so many milliseconds; where
    /// none is under way it doesn't wait.
    fn next_ended(&mut self, millis: u64) -> Option<Probed>
        ensures under_way { Ends (under_way self.old) (under_way self.new) result }
        ensures ended { Grows (ended self.old) (ended self.new) (option_to_list result) }
        ensures begun { begun self.new ≡ begun self.old };
}

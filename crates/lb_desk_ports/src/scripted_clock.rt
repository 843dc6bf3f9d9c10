ghost use Rattle.std.specs.Prelude.{◌≡◌, ◌∷◌, Some, []};
ghost use Rattle.std.specs.Option.{option_map};
ghost use Rattle.lb_desk_ports.specs.Calls.{Grows};

use crate::Clock;
use lb_types::Moment;
use std::alloc::Global;

/// A clock for tests, which moves by its pauses alone, up to 2^64 - 1. It records its moments and pauses, and loses a record
/// where memory for it is short.
#[derive(Debug, Drop)]
pub struct ScriptedClock {
    millis: u64,
    told: Option<Vec<u64>>,
    pauses: Option<Vec<u64>>,
}

impl ScriptedClock {
    /// A clock that stands at `millis` milliseconds.
    pub fn new(alloc: Global, millis: u64) -> Self
        ensures told { ⟦<ScriptedClock as Clock<()>>⟧.told result ≡ Some [] }
        ensures pauses { ⟦<ScriptedClock as Clock<()>>⟧.pauses result ≡ Some [] }
    {
        ScriptedClock {
            millis,
            told: Some(Vec::new(alloc)),
            pauses: Some(Vec::new(alloc)),
        }
    }

    /// The moments that it returned, in milliseconds.
    pub fn told(&self) -> Option<&[u64]>
        ensures { option_map (λ told. told.now) result ≡ ⟦<ScriptedClock as Clock<()>>⟧.told self.now }
    {
        match &self.told {
            Some(told) => Some(told.as_slice()),
            None => None,
        }
    }

    /// The milliseconds of its pauses.
    pub fn pauses(&self) -> Option<&[u64]>
        ensures { option_map (λ pauses. pauses.now) result ≡ ⟦<ScriptedClock as Clock<()>>⟧.pauses self.now }
    {
        match &self.pauses {
            Some(pauses) => Some(pauses.as_slice()),
            None => None,
        }
    }
}

impl<R> Clock<R> for ScriptedClock {
    ghost told = { λ clock. option_map (λ told. told.items) clock.told };

    ghost pauses = { λ clock. option_map (λ pauses. pauses.items) clock.pauses };

    fn now(&mut self, _rt: &R) -> Moment {
        record(&mut self.told, self.millis);
        Moment::from_millis(self.millis)
    }

    fn pause(&mut self, _rt: &R, millis: u64) {
        record(&mut self.pauses, millis);
        self.millis = self.millis.saturating_add(millis);
    }
}

// Adds to a record, or loses it.
fn record(list: &mut Option<Vec<u64>>, number: u64)
    ensures { Grows (option_map (λ l. l.items) list.old) (option_map (λ l. l.items) list.new) (number ∷ []) }
{
    let Some(mut numbers) = list.take() else {
        return;
    };
    if let Ok(()) = numbers.push(number) {
        *list = Some(numbers);
    }
}

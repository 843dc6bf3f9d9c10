ghost use Rattle.std.specs.Prelude.{◌≡◌, ◌∷◌, Some, [], false, replicate};
ghost use Rattle.std.specs.Option.{option_map, option_to_list};
ghost use Rattle.lb_types.specs.declared.limits.TheConstants.{MAX_SERVERS};
ghost use Rattle.lb_desk_ports.specs.Calls.{Grows};
ghost use Rattle.check_workers_round.specs.Probing.{Ends};

use crate::{Probed, Probes};
use lb_types::{MAX_SERVERS, ServerId};
use std::alloc::Global;

/// What a `ScriptedProbes` answers to a call that asks for a probe that has ended, while one is under way.
#[derive(Clone, Copy, Debug, PartialEq, Eq)]
pub enum Turn {
    /// The probe of this server has ended so, if one is under way.
    Ends(ServerId, bool),
    /// None has.
    Waits,
}

/// Probes for tests, which end by a script. It records what was begun and what has ended, and loses a record where memory for it is
/// short.
#[derive(Debug, Drop)]
pub struct ScriptedProbes<'a> {
    turns: &'a [Turn],
    under_way: [bool; MAX_SERVERS],
    begun: Option<Vec<ServerId>>,
    ended: Option<Vec<Probed>>,
}

impl<'a> ScriptedProbes<'a> {
    /// Probes that end so, in turn. After the last turn those that are under way end at once, as failed.
    pub fn new(alloc: Global, turns: &'a [Turn]) -> Self
        ensures under_way { ⟦<ScriptedProbes<'a> as Probes>⟧.under_way result ≡ replicate MAX_SERVERS false }
        ensures begun { ⟦<ScriptedProbes<'a> as Probes>⟧.begun result ≡ Some [] }
        ensures ended { ⟦<ScriptedProbes<'a> as Probes>⟧.ended result ≡ Some [] }
    {
        ScriptedProbes {
            turns,
            under_way: [false; MAX_SERVERS],
            begun: Some(Vec::new(alloc)),
            ended: Some(Vec::new(alloc)),
        }
    }

    /// The servers whose probes were begun, if none was forgotten.
    pub fn begun(&self) -> Option<&[ServerId]>
        ensures { option_map (λ begun. begun.now) result ≡ ⟦<ScriptedProbes<'a> as Probes>⟧.begun self.now }
    {
        match &self.begun {
            Some(begun) => Some(begun.as_slice()),
            None => None,
        }
    }

    /// The probes that have ended, if none was forgotten.
    pub fn ended(&self) -> Option<&[Probed]>
        ensures { option_map (λ ended. ended.now) result ≡ ⟦<ScriptedProbes<'a> as Probes>⟧.ended self.now }
    {
        match &self.ended {
            Some(ended) => Some(ended.as_slice()),
            None => None,
        }
    }

    /// What the next call is answered.
    fn next_turn(&mut self) -> Turn
        ensures { self.new ≡ record self.old { turns = self.new.turns } }
    {
        if let Some((turn, rest)) = self.turns.split_first() {
            self.turns = rest;
            return *turn;
        }
        for place in 0..MAX_SERVERS {
            if self.under_way[place] {
                return Turn::Ends(ServerId::new(place as u8), false);
            }
        }
        Turn::Waits
    }
}

impl<'a> Probes for ScriptedProbes<'a> {
    ghost under_way = { λ probes. probes.under_way };

    ghost begun = { λ probes. option_map (λ begun. begun.items) probes.begun };

    ghost ended = { λ probes. option_map (λ ended. ended.items) probes.ended };

    fn is_under_way(&self, server: ServerId) -> bool {
        self.under_way[server.index()]
    }

    fn begin(&mut self, server: ServerId) {
        self.under_way[server.index()] = true;
        record(&mut self.begun, server);
    }

    fn next_ended(&mut self, _millis: u64) -> Option<Probed> {
        if !self.under_way.contains(&true) {
            return None;
        }
        let Turn::Ends(server, ok) = self.next_turn() else {
            return None;
        };
        if !self.under_way[server.index()] {
            return None;
        }
        self.under_way[server.index()] = false;
        record(&mut self.ended, Probed { server, ok });
        Some(Probed { server, ok })
    }
}

// Adds to a record, or loses it.
fn record<T: Drop>(list: &mut Option<Vec<T>>, one: T)
    ensures { Grows (option_map (λ l. l.items) list.old) (option_map (λ l. l.items) list.new) (one ∷ []) }
{
    let Some(mut all) = list.take() else {
        return;
    };
    if let Ok(()) = all.push(one) {
        *list = Some(all);
    }
}

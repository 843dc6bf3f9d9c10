ghost use Rattle.std.specs.Prelude.{◌≡◌, ◌∷◌, Some, [], map, false};
ghost use Rattle.std.specs.Option.{option_map};
ghost use Rattle.lb_desk_ports.specs.Calls.{Grows};
ghost use Rattle.http_relay_dial.specs.Dials.{talk_of, HasTaken};
ghost use Rattle.http_relay_dial.specs.Scripted.{dial_recorded};

use crate::dialer::Dialer;
use crate::{Endpoint, Limits};
use http_relay_wire::{Script, ScriptedWire, Wire, WireFault};
use std::alloc::Global;

/// What a `ScriptedDialer` answers to one dial: what the server sends, and how its wire behaves; or why there is none.
pub type DialScript<'a> = Result<(&'a [u8], Script<'a>), WireFault>;

/// A dial that was made.
#[derive(Clone, Copy, Debug, PartialEq, Eq)]
pub struct ScriptedDial<'a> {
    pub endpoint: Endpoint,
    pub limits: Limits,
    pub answer: DialScript<'a>,
}

/// A dialer over memory, for tests. A wire takes of the bytes that it is dialled with what its first write would take. The dialer
/// records its dials and keeps the wires that were given back. It loses a record where memory for it is short.
#[derive(Debug, Drop)]
pub struct ScriptedDialer<'a> {
    alloc: Global,
    servers: &'a [DialScript<'a>],
    made: usize,
    dials: Option<Vec<ScriptedDial<'a>>>,
    talks: Option<Vec<ScriptedWire<'a>>>,
    failures: u64,
}

impl<'a> ScriptedDialer<'a> {
    /// A dialer that answers so, in turn. Dials after the last are broken.
    pub fn new(alloc: Global, servers: &'a [DialScript<'a>]) -> Self
        ensures dials { ⟦<ScriptedDialer<'a> as Dialer<()>>⟧.dials result ≡ Some [] }
        ensures talks { ⟦<ScriptedDialer<'a> as Dialer<()>>⟧.talks result ≡ Some [] }
        ensures failures { ⟦<ScriptedDialer<'a> as Dialer<()>>⟧.failures result ≡ 0 }
    {
        ScriptedDialer {
            alloc,
            servers,
            made: 0,
            dials: Some(Vec::new(alloc)),
            talks: Some(Vec::new(alloc)),
            failures: 0,
        }
    }

    /// The dials that were made, if none was forgotten.
    pub fn dials(&self) -> Option<&[ScriptedDial<'a>]> {
        match &self.dials {
            Some(dials) => Some(dials.as_slice()),
            None => None,
        }
    }

    /// The wires that were given back, if none was forgotten.
    pub fn talks(&self) -> Option<&[ScriptedWire<'a>]> {
        match &self.talks {
            Some(talks) => Some(talks.as_slice()),
            None => None,
        }
    }

    // The answer to the next dial.
    fn next_answer(&mut self) -> DialScript<'a>
        ensures { self.new ≡ record self.old { made = self.new.made } }
    {
        let made = self.made;
        self.made = made.saturating_add(1);
        match self.servers.get(made) {
            Some(answer) => *answer,
            None => Err(WireFault::Broken),
        }
    }
}

impl<'a, R> Dialer<R> for ScriptedDialer<'a> {
    type Connection = ScriptedWire<'a>;

    ghost dials = { λ dialer. option_map (λ dials. map dial_recorded dials.items) dialer.dials };

    ghost talks = { λ dialer. option_map (λ talks. map
        (talk_of ⟦<ScriptedWire<'a> as Wire>⟧.written ⟦<ScriptedWire<'a> as Wire>⟧.reading ⟦<ScriptedWire<'a> as Wire>⟧.faults)
        talks.items) dialer.talks };

    ghost failures = { λ dialer. dialer.failures };

    fn dial(
        &mut self,
        _rt: &R,
        endpoint: Endpoint,
        limits: Limits,
        first: &[u8],
    ) -> Result<(ScriptedWire<'a>, usize), WireFault> {
        let answer = self.next_answer();
        record(
            &mut self.dials,
            ScriptedDial {
                endpoint,
                limits,
                answer,
            },
        );
        match answer {
            Ok((bytes, script)) => Ok(begun(self.alloc, bytes, script, first)),
            Err(fault) => {
                self.failures = self.failures.saturating_add(1);
                Err(fault)
            }
        }
    }

    fn hang_up(&mut self, _rt: &R, connection: ScriptedWire<'a>) {
        record(&mut self.talks, connection);
    }
}

// A wire that has taken of the first bytes what a write takes, or nothing where that write would fail.
fn begun<'a>(
    alloc: Global,
    bytes: &'a [u8],
    script: Script<'a>,
    first: &[u8],
) -> (ScriptedWire<'a>, usize)
    ensures reading { ⟦<ScriptedWire<'a> as Wire>⟧.reading result.0 ≡ record { unread = Some bytes.now; left = script.entry.reads; ended = false } }
    ensures taken { HasTaken first.now result.1 (talk_of ⟦<ScriptedWire<'a> as Wire>⟧.written ⟦<ScriptedWire<'a> as Wire>⟧.reading
        ⟦<ScriptedWire<'a> as Wire>⟧.faults result.0) }
{
    let mut wire = ScriptedWire::new(alloc, bytes, script);
    if first.is_empty() {
        return (wire, 0);
    }
    match wire.write(first) {
        Ok(count) => (wire, count),
        Err(_) => (ScriptedWire::new(alloc, bytes, script), 0),
    }
}

// Adds to a record, or loses it.
fn record<T: Drop>(list: &mut Option<Vec<T>>, one: T)
    ensures { Grows (option_map (λ l. l.items) list.old) (option_map (λ l. l.items) list.new) (one ∷ []) }
{
    let Some(mut all) = list.take() else {
        return;
    };
    if let Ok(()) = all.push(one) {
        *list = Some(all);
    }
}

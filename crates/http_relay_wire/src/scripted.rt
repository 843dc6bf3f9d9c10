ghost use Rattle.std.specs.Prelude.{◌≡◌, ◌-◌, ◌==◌, Some, None, IfNone, IsSome, IfSome, cond, ◌≤◌, true, false, []};
ghost use Rattle.http_relay_wire.specs.Faults.{no_faults};

use crate::fault::{FaultCounts, WireFault};
use crate::wire::Wire;
use std::alloc::Global;

/// How a `ScriptedWire` behaves.
#[derive(Clone, Copy, Debug, PartialEq, Eq)]
pub struct Script<'a> {
    /// The most bytes that each read gives, in turn and then again from the first; 0 counts as 1. With no entry
    /// nothing limits a read.
    pub pieces: &'a [usize],
    /// The most bytes that a write takes; 0 counts as 1.
    pub most_written: usize,
    /// The read that fails, counted from 0, and how.
    pub failing_read: Option<(u64, WireFault)>,
    /// The write that fails, counted from 0, and how.
    pub failing_write: Option<(u64, WireFault)>,
    /// How many reads may be made.
    pub reads: u64,
}

impl Script<'_> {
    /// Everything moves at once, nothing fails, and 2^62 reads may be made.
    pub const SMOOTH: Script<'static> = Script {
        pieces: &[],
        most_written: usize::MAX,
        failing_read: None,
        failing_write: None,
        reads: 1 << 62,
    };
}

/// A wire over memory, for tests: its peer sends fixed bytes and ends, and what is written to it is kept. A write
/// without memory for that is a broken write.
#[derive(Debug, Drop)]
pub struct ScriptedWire<'a> {
    script: Script<'a>,
    unread: &'a [u8],
    has_ended: bool,
    written: Vec<u8>,
    reads_left: u64,
    reads_made: u64,
    writes_made: u64,
    faults: FaultCounts,
}

impl<'a> ScriptedWire<'a> {
    /// A wire whose peer sends `input` and then ends. It hasn't failed yet.
    pub fn new(alloc: Global, input: &'a [u8], script: Script<'a>) -> Self
        ensures reading { ⟦<ScriptedWire<'a> as Wire>⟧.reading result
            ≡ record { unread = Some input.now; left = script.entry.reads; ended = false } }
        ensures written { ⟦<ScriptedWire<'a> as Wire>⟧.written result ≡ Some [] }
        ensures faults { ⟦<ScriptedWire<'a> as Wire>⟧.faults result ≡ no_faults }
    {
        ScriptedWire {
            script,
            unread: input,
            has_ended: false,
            written: Vec::new(alloc),
            reads_left: script.reads,
            reads_made: 0,
            writes_made: 0,
            faults: FaultCounts::default(),
        }
    }

    /// What was written so far.
    pub fn written(&self) -> &[u8]
        ensures { ⟦<ScriptedWire<'a> as Wire>⟧.written self.now ≡ Some result.now }
    {
        &self.written
    }

    /// The bytes that no read has given yet.
    pub fn unread(&self) -> &'a [u8]
        ensures { (⟦<ScriptedWire<'a> as Wire>⟧.reading self.now).unread ≡ Some result.now }
    {
        self.unread
    }

    /// How often it has failed.
    pub fn faults(&self) -> FaultCounts
        ensures { result ≡ ⟦<ScriptedWire<'a> as Wire>⟧.faults self.now }
    {
        self.faults
    }

    // The most bytes that the next read gives.
    fn piece(&self) -> usize
        ensures { 1 ≤ result }
    {
        let pieces = self.script.pieces;
        if pieces.is_empty() {
            return usize::MAX;
        }
        let turn = self.reads_made % pieces.len() as u64;
        pieces[turn as usize].max(1)
    }
}

// How the call of this number fails, if it is the failing one.
fn planned(failing: Option<(u64, WireFault)>, number: u64) -> Option<WireFault> {
    match failing {
        Some((at, fault)) if at == number => Some(fault),
        _ => None,
    }
}

impl<'a> Wire for ScriptedWire<'a> {
    ghost use Rattle.http_relay_wire.specs.Wires.{Reading};

    ghost reading = { λ wire. record { unread = Some wire.unread.now; left = wire.reads_left; ended = wire.has_ended } };

    ghost written = { λ wire. Some wire.written.items };

    ghost faults = { λ wire. wire.faults };

    fn read(&mut self, buffer: &mut [u8]) -> Result<usize, WireFault> {
        if self.reads_left == 0 {
            self.faults.count_read(WireFault::Broken);
            return Err(WireFault::Broken);
        }
        let count = self.unread.len().min(buffer.len()).min(self.piece());
        let fault = planned(self.script.failing_read, self.reads_made);
        self.reads_left -= 1;
        self.reads_made = self.reads_made.saturating_add(1);
        if let Some(fault) = fault {
            self.faults.count_read(fault);
            return Err(fault);
        }
        buffer[..count].copy_from_slice(&self.unread[..count]);
        self.unread = &self.unread[count..];
        self.has_ended = self.has_ended || (count == 0 && !buffer.is_empty());
        Ok(count)
    }

    fn write(&mut self, bytes: &[u8]) -> Result<usize, WireFault> {
        let fault = planned(self.script.failing_write, self.writes_made);
        self.writes_made = self.writes_made.saturating_add(1);
        if let Some(fault) = fault {
            self.faults.count_write(fault);
            return Err(fault);
        }
        let count = bytes.len().min(self.script.most_written.max(1));
        if self.written.extend_from_slice(&bytes[..count]).is_err() {
            self.faults.count_write(WireFault::Broken);
            return Err(WireFault::Broken);
        }
        Ok(count)
    }
}

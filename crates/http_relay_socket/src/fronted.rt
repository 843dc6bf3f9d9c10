ghost use Rattle.std.specs.Prelude.{◌≡◌, ◌≤◌, ◌^◌, false, ℕ, List, length, IfOk, IsTrue};
ghost use Rattle.std.specs.Io.KnownBytes.{prepend_known, IsAtEnd};
ghost use Rattle.http_relay_wire.specs.Faults.{no_faults};
ghost use Rattle.http_relay_wire.specs.Wires.{moved, tells_end};

use http_relay_wire::{FaultCounts, Wire, WireFault};

/// How many reads a fronted wire allows.
const MOST_READS: u64 = 1 << 62;

/// A wire of which bytes were read before: it gives these first, and then what the wrapped wire gives.
#[derive(Debug, Drop)]
pub struct FrontedWire<'a, W> {
    wire: W,
    front: &'a [u8],
    // How reading had failed after the front.
    failed: Option<WireFault>,
    has_ended: bool,
    reads_left: u64,
    faults: FaultCounts,
}

impl<'a, W: Wire> FrontedWire<'a, W> {
    /// The wire with these bytes before its own. Where reading had failed after them, each read there fails so again. 2^62 reads may
    /// be made. It hasn't failed yet, whatever the wrapped wire did.
    pub fn new(wire: W, front: &'a [u8], failed: Option<WireFault>) -> Self
        ensures reading { ⟦<FrontedWire<'a, W> as Wire>⟧.reading result
            ≡ record { unread = prepend_known front.now (W.reading wire).unread; left = 2 ^ 62; ended = false } }
        ensures written { ⟦<FrontedWire<'a, W> as Wire>⟧.written result ≡ W.written wire }
        ensures faults { ⟦<FrontedWire<'a, W> as Wire>⟧.faults result ≡ no_faults }
    {
        FrontedWire {
            wire,
            front,
            failed,
            has_ended: false,
            reads_left: MOST_READS,
            faults: FaultCounts::default(),
        }
    }

    /// The wrapped wire.
    pub fn wire(&self) -> &W
        ensures unread { (front : List ℕ)
            × ((⟦<FrontedWire<'a, W> as Wire>⟧.reading self.now).unread ≡ prepend_known front (W.reading result.now).unread) }
        ensures written { W.written result.now ≡ ⟦<FrontedWire<'a, W> as Wire>⟧.written self.now }
    {
        &self.wire
    }

    /// The wrapped wire, without the bytes that were read before.
    pub fn into_wire(self) -> W
        ensures unread { (front : List ℕ)
            × ((⟦<FrontedWire<'a, W> as Wire>⟧.reading self.entry).unread ≡ prepend_known front (W.reading result).unread) }
        ensures written { W.written result ≡ ⟦<FrontedWire<'a, W> as Wire>⟧.written self.entry }
    {
        let FrontedWire { wire, .. } = self;
        wire
    }
}

// Takes the next bytes into the front of the buffer: those that were read before while there are any, and then the wire's.
fn take<W: Wire>(
    wire: &mut W,
    front: &mut &[u8],
    failed: Option<WireFault>,
    buffer: &mut [u8],
) -> Result<usize, WireFault>
    ensures within { IfOk result (λ count. count ≤ length buffer.new) }
    ensures bytes { prepend_known front.old.now (W.reading wire.old).unread
        ≡ prepend_known (moved result buffer.new) (prepend_known front.new.now (W.reading wire.new).unread) }
    ensures end { IsTrue (tells_end result (length buffer.new)) → IsAtEnd (prepend_known front.new.now (W.reading wire.new).unread) }
    ensures written { W.written wire.new ≡ W.written wire.old }
{
    if !front.is_empty() {
        let count = front.len().min(buffer.len());
        buffer[..count].copy_from_slice(&front[..count]);
        *front = &front[count..];
        return Ok(count);
    }
    match failed {
        Some(fault) => Err(fault),
        None => wire.read(buffer),
    }
}

impl<'a, W: Wire> Wire for FrontedWire<'a, W> {
    ghost use Rattle.http_relay_wire.specs.Wires.{Reading};

    ghost reading = { λ wire. record {
      unread = prepend_known wire.front.now (W.reading wire.wire).unread;
      left = wire.reads_left;
      ended = wire.has_ended;
    } };

    ghost written = { λ wire. W.written wire.wire };

    ghost faults = { λ wire. wire.faults };

    fn read(&mut self, buffer: &mut [u8]) -> Result<usize, WireFault> {
        if self.reads_left == 0 {
            self.faults.count_read(WireFault::Broken);
            return Err(WireFault::Broken);
        }
        self.reads_left -= 1;
        let answer = take(&mut self.wire, &mut self.front, self.failed, buffer);
        match answer {
            Ok(count) => self.has_ended = self.has_ended || (count == 0 && !buffer.is_empty()),
            Err(fault) => self.faults.count_read(fault),
        }
        answer
    }

    fn write(&mut self, bytes: &[u8]) -> Result<usize, WireFault> {
        let answer = self.wire.write(bytes);
        if let Err(fault) = answer {
            self.faults.count_write(fault);
        }
        answer
    }
}

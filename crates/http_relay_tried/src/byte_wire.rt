//! A wire over memory that fails after any of its bytes, however these are split up.

ghost use Rattle.std.specs.Prelude.{◌≡◌, ◌^◌, None, false};
ghost use Rattle.http_relay_wire.specs.Faults.{no_faults};
ghost use Rattle.http_relay_wire.specs.Wires.{Reading};

use http_relay_wire::{FaultCounts, Wire, WireFault};
use std::alloc::Global;

/// How a peer behaves.
#[derive(Clone, Copy, Debug)]
pub(crate) struct Peer {
    /// How many bytes come of what it would send.
    pub(crate) sends: usize,
    /// How a read after those fails. Without a fault the peer ends there.
    pub(crate) then: Option<WireFault>,
    /// How many bytes it takes.
    pub(crate) takes: usize,
    /// How a write after those fails.
    pub(crate) refuses: WireFault,
    /// The most bytes that a read gives, in turn; 0 counts as 1.
    pub(crate) pieces: (usize, usize),
    /// The most bytes that a write takes; 0 counts as 1.
    pub(crate) most_written: usize,
}

/// A wire to a peer that sends fixed bytes. What is written to it is kept. It states no proof of its bytes, so that it may be plain.
#[derive(Drop)]
pub(crate) struct ByteWire<'a> {
    peer: Peer,
    unread: &'a [u8],
    has_ended: bool,
    given: usize,
    written: Vec<u8>,
    reads_left: u64,
    faults: FaultCounts,
}

impl<'a> ByteWire<'a> {
    /// A wire to a peer that would send `text` and behaves so.
    pub(crate) fn new(alloc: Global, text: &'a [u8], peer: Peer) -> Self
        ensures reading { ⟦<ByteWire<'a> as Wire>⟧.reading result ≡ record { unread = None; left = 2 ^ 62; ended = false } }
        ensures written { ⟦<ByteWire<'a> as Wire>⟧.written result ≡ None }
        ensures faults { ⟦<ByteWire<'a> as Wire>⟧.faults result ≡ no_faults }
    {
        ByteWire {
            peer,
            unread: front(text, peer.sends),
            has_ended: false,
            given: 0,
            written: Vec::new(alloc),
            reads_left: 1 << 62,
            faults: FaultCounts::default(),
        }
    }

    /// How many bytes reads gave so far.
    pub(crate) fn given(&self) -> usize {
        self.given
    }

    /// What was written so far.
    pub(crate) fn written(&self) -> &[u8] {
        &self.written
    }
}

impl Wire for ByteWire<'_> {
    ghost reading = { λ wire. record { unread = None; left = wire.reads_left; ended = wire.has_ended } };

    ghost written = { λ wire. None };

    ghost faults = { λ wire. wire.faults };

    fn read(&mut self, buffer: &mut [u8]) -> Result<usize, WireFault> {
        if self.reads_left == 0 {
            self.faults.count_read(WireFault::Broken);
            return Err(WireFault::Broken);
        }
        self.reads_left -= 1;
        if let Some(fault) = fault_behind(self.unread, self.peer.then) {
            self.faults.count_read(fault);
            return Err(fault);
        }
        let piece = if self.reads_left % 2 == 0 {
            self.peer.pieces.0.max(1)
        } else {
            self.peer.pieces.1.max(1)
        };
        let count = self.unread.len().min(buffer.len()).min(piece);
        buffer[..count].copy_from_slice(&self.unread[..count]);
        self.unread = &self.unread[count..];
        self.given = self.given.saturating_add(count);
        self.has_ended = self.has_ended || (count == 0 && !buffer.is_empty());
        Ok(count)
    }

    fn write(&mut self, bytes: &[u8]) -> Result<usize, WireFault> {
        let room = self.peer.takes.saturating_sub(self.written.len());
        if room == 0 && !bytes.is_empty() {
            self.faults.count_write(self.peer.refuses);
            return Err(self.peer.refuses);
        }
        let count = bytes.len().min(room).min(self.peer.most_written.max(1));
        if self.written.extend_from_slice(&bytes[..count]).is_err() {
            self.faults.count_write(WireFault::Broken);
            return Err(WireFault::Broken);
        }
        Ok(count)
    }
}

/// How a read fails, where no byte is left before that.
fn fault_behind(unread: &[u8], then: Option<WireFault>) -> Option<WireFault> {
    if unread.is_empty() { then } else { None }
}

/// The first bytes of a text, so many or all.
pub(crate) fn front(text: &[u8], count: usize) -> &[u8] {
    &text[..count.min(text.len())]
}

/// What comes after them.
pub(crate) fn back(text: &[u8], count: usize) -> &[u8] {
    &text[count.min(text.len())..]
}

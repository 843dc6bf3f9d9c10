//! A dialer over memory, whose wires fail after any of their bytes.

ghost use Rattle.std.specs.Prelude.{None};
ghost use Rattle.http_relay_dial.specs.Dials.{HasTaken, talk_of};

use crate::byte_wire::{ByteWire, Peer};
use http_relay_dial::{Dialer, Endpoint, Limits};
use http_relay_wire::{Wire, WireFault};
use std::alloc::Global;

/// A dialer that gives the same answer to each dial. It keeps its dials and the wires that it got back, and says where memory for
/// these was short.
#[derive(Drop)]
pub(crate) struct TriedDialer<'a> {
    alloc: Global,
    response: &'a [u8],
    answer: Result<Peer, WireFault>,
    failures: u64,
    pub(crate) dials: Vec<(Endpoint, Limits)>,
    pub(crate) talks: Vec<ByteWire<'a>>,
    pub(crate) forgot: bool,
}

impl<'a> TriedDialer<'a> {
    /// A dialer to a server that would send `response`.
    pub(crate) fn new(alloc: Global, response: &'a [u8], answer: Result<Peer, WireFault>) -> Self {
        TriedDialer {
            alloc,
            response,
            answer,
            failures: 0,
            dials: Vec::new(alloc),
            talks: Vec::new(alloc),
            forgot: false,
        }
    }
}

impl<'a, R> Dialer<R> for TriedDialer<'a> {
    type Connection = ByteWire<'a>;

    ghost dials = { λ dialer. None };

    ghost talks = { λ dialer. None };

    ghost failures = { λ dialer. dialer.failures };

    fn dial(
        &mut self,
        _rt: &R,
        endpoint: Endpoint,
        limits: Limits,
        first: &[u8],
    ) -> Result<(ByteWire<'a>, usize), WireFault> {
        if self.dials.push((endpoint, limits)).is_err() {
            self.forgot = true;
        }
        match self.answer {
            Ok(peer) => Ok(begun(self.alloc, self.response, peer, first)),
            Err(fault) => {
                self.failures = self.failures.saturating_add(1);
                Err(fault)
            }
        }
    }

    fn hang_up(&mut self, _rt: &R, connection: ByteWire<'a>) {
        if self.talks.push(connection).is_err() {
            self.forgot = true;
        }
    }
}

// A wire that has taken of the first bytes what a write takes, or nothing where that write would fail.
fn begun<'a>(alloc: Global, response: &'a [u8], peer: Peer, first: &[u8]) -> (ByteWire<'a>, usize)
    ensures { HasTaken first.now result.1 (talk_of ⟦<ByteWire<'a> as Wire>⟧.written ⟦<ByteWire<'a> as Wire>⟧.reading
        ⟦<ByteWire<'a> as Wire>⟧.faults result.0) }
{
    let mut wire = ByteWire::new(alloc, response, peer);
    match wire.write(first) {
        Ok(count) => (wire, count),
        Err(_) => (ByteWire::new(alloc, response, peer), 0),
    }
}

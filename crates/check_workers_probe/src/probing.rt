ghost use Rattle.std.specs.Prelude.{◌≡◌, ◌<◌, ◌++◌, [], length, true, Some, IfOk, OnOk, OnErr, IfSome, IfNone, IsSome};
ghost use Rattle.http_relay_wire.specs.Faults.{after_write};
ghost use Rattle.check_workers_probe.specs.Probes.{at_start, GoesOn, Answers};

use crate::judge::MOST_BYTES;
use crate::moving::{hear, write_most};
use check_workers_rule::{CheckRequest, CheckRule};
use http_relay_wire::{Wire, WireFault};
use std::alloc::{AllocError, Global};
use std::marker::Model;

/// A probe of a server: what is still to be sent, and what has come back. It can be made again and again, and allocates only in `new`:
/// 16384 bytes where it sends a request.
#[derive(Debug, Drop)]
pub struct Probing<'a> {
    rule: &'a CheckRule,
    /// What is left of the request's line, and of its fields.
    line: &'a [u8],
    fields: &'a [u8],
    /// What has come stands at its front.
    room: Vec<u8>,
    filled: usize,
}

impl<'a> Model for Probing<'a> {
    ghost use Rattle.std.specs.Prelude.{◌≡◌, ◌≤◌, ◌++◌, IfSome, take, vec_len};
    ghost use Rattle.check_workers_probe.specs.Probes.{Course};
    ghost use Rattle.check_workers_probe.specs.declared.judge.TheConstants.{MOST_BYTES};

    ghost Value = { Course };

    ghost invariant = { λ p. IfSome p.rule.now (λ _. vec_len p.room ≡ MOST_BYTES) × (p.filled ≤ vec_len p.room) };

    ghost view = { λ p. record { request = p.rule.now; unsent = p.line.now ++ p.fields.now; came = take p.filled p.room.items } };
}

impl<'a> Probing<'a> {
    /// A probe by this rule that has sent nothing yet. The only error is out of memory.
    pub fn new(alloc: Global, rule: &'a CheckRule) -> Result<Self, AllocError>
        ensures { IfOk result (λ probing. probing ≡ at_start rule.now) }
    {
        let size = if rule.request().is_some() {
            MOST_BYTES
        } else {
            0
        };
        let request = request_of(rule);
        Ok(Probing {
            rule,
            line: request.line,
            fields: request.fields,
            room: vec![in alloc; 0; size]?,
            filled: 0,
        })
    }

    /// Forgets what was sent and read, so that the probe can be made once more, over another wire.
    pub fn restart(&mut self)
        ensures { self.new ≡ at_start self.old.request }
    {
        let request = request_of(self.rule);
        self.line = request.line;
        self.fields = request.fields;
        self.filled = 0;
    }

    /// Goes on over the wire, which is connected, until the answer is there or a call of the wire times out. Gives whether the server
    /// is well, or nothing yet. Each read costs one walk over what has come.
    pub fn go_on<W: Wire>(&mut self, wire: &mut W) -> Option<bool>
        // A bare connect is a success, and nothing is sent or read.
        ensures connect { IfNone self.old.request (result ≡ Some true) }
        ensures idle { IfNone self.old.request (wire.new ≡ wire.old) }

        // Else the request goes out whole before a byte is read.
        ensures goes_on { GoesOn self.old self.new (W.written wire.old) (W.written wire.new) (W.reading wire.old) (W.reading wire.new) }
        ensures answers { IfSome self.old.request (λ _. Answers result self.new (W.reading wire.new) (W.faults wire.old) (W.faults wire.new)) }
    {
        if self.rule.request().is_none() {
            return Some(true);
        }
        match self.send(wire) {
            Ok(()) => self.hear(wire),
            Err(WireFault::Timeout) => None,
            Err(WireFault::Broken) => Some(false),
        }
    }

    /// Sends what is left of the request, or as much as the wire takes before a call fails.
    fn send<W: Wire>(&mut self, wire: &mut W) -> Result<(), WireFault>
        ensures goes_on { GoesOn self.old self.new (W.written wire.old) (W.written wire.new) (W.reading wire.old) (W.reading wire.new) }
        ensures ok { OnOk result (self.new.unsent ≡ []) }
        ensures err { OnErr result (0 < length self.new.unsent) }
        ensures faults { W.faults wire.new ≡ after_write result (W.faults wire.old) }
    {
        let (count, answer) = write_most(wire, self.line);
        self.line = &self.line[count..];
        answer?;
        let (count, answer) = write_most(wire, self.fields);
        self.fields = &self.fields[count..];
        answer
    }

    /// Reads until what has come is judged or a read fails.
    fn hear<W: Wire>(&mut self, wire: &mut W) -> Option<bool>
        requires asks { IsSome self.old.request }
        requires sent { self.old.unsent ≡ [] }
        ensures goes_on { GoesOn self.old self.new (W.written wire.old) (W.written wire.new) (W.reading wire.old) (W.reading wire.new) }
        ensures answers { Answers result self.new (W.reading wire.new) (W.faults wire.old) (W.faults wire.new) }
    {
        let (filled, answer) = hear(wire, &mut self.room, self.filled);
        self.filled = filled;
        answer
    }
}

/// The request that the rule's probes send, and an empty one where connecting is all.
fn request_of(rule: &CheckRule) -> CheckRequest<'_>
    ensures { result.line.now ++ result.fields.now ≡ (at_start rule.now).unsent }
{
    match rule.request() {
        Some(request) => request,
        None => CheckRequest {
            line: &[],
            fields: &[],
        },
    }
}

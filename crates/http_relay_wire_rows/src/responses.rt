use http_relay_body::{CopyFault, copy_back};
use http_relay_wire::{Script, ScriptedWire, Wire, WireFault};
use std::alloc::{AllocError, Global};
use std::cell::Cell;
use std::test::Fail;

/// A scripted wire that notes its calls in a log which it shares: each appends its digit.
#[derive(Drop)]
struct Noting<'a> {
    wire: ScriptedWire<'a>,
    log: &'a Cell<u64>,
}

impl Noting<'_> {
    fn note(&self, digit: u64) {
        let digits = self.log.get().saturating_mul(10);
        self.log.set(digits.saturating_add(digit));
    }
}

impl<'a> Wire for Noting<'a> {
    ghost use Rattle.http_relay_wire.specs.Wires.{Reading};

    ghost reading = { λ noting. ⟦<ScriptedWire<'a> as Wire>⟧.reading noting.wire };

    ghost written = { λ noting. ⟦<ScriptedWire<'a> as Wire>⟧.written noting.wire };

    ghost faults = { λ noting. ⟦<ScriptedWire<'a> as Wire>⟧.faults noting.wire };

    fn read(&mut self, buffer: &mut [u8]) -> Result<usize, WireFault> {
        self.note(1);
        self.wire.read(buffer)
    }

    fn write(&mut self, bytes: &[u8]) -> Result<usize, WireFault> {
        self.note(2);
        self.wire.write(bytes)
    }
}

// What a read of the server gives goes out before the next read: an event stream doesn't wait for a full room.
#[test]
fn a_response_goes_out_as_it_comes(rt: HostRuntime) {
    let log = Cell::new(0);
    let script = Script {
        pieces: &[1],
        ..Script::SMOOTH
    };
    let mut server = Noting {
        wire: ScriptedWire::new(rt.alloc(), b"abc", script),
        log: &log,
    };
    let mut client = Noting {
        wire: ScriptedWire::new(rt.alloc(), b"", Script::SMOOTH),
        log: &log,
    };
    let copied = copy_back(&mut server, &mut client);
    assert!(rt; copied == Ok(3) && log.get() == 1_212_121);
}

// A response of so many bytes.
fn response_of(alloc: Global, size: u64) -> Result<Vec<u8>, AllocError> {
    let mut response = Vec::new(alloc);
    for _ in 0..size {
        response.push(b'r')?;
    }
    Ok(response)
}

// What the copy of a response through these wires gives, and whether these bytes went out.
fn copied(
    alloc: Global,
    response: &[u8],
    server: Script,
    client: Script,
    written: &[u8],
) -> (Result<u64, CopyFault>, bool) {
    let mut server = ScriptedWire::new(alloc, response, server);
    let mut client = ScriptedWire::new(alloc, b"", client);
    let copied = copy_back(&mut server, &mut client);
    (copied, client.written() == written)
}

#[test]
fn responses_are_copied_to_their_end(rt: HostRuntime) -> Result<(), Fail> {
    for size in [0, 1, 100_000] {
        let response = response_of(rt.alloc(), size)?;
        for pieces in [[].as_slice(), &[1, 16384]] {
            let script = Script {
                pieces,
                ..Script::SMOOTH
            };
            let copied = copied(rt.alloc(), &response, script, Script::SMOOTH, &response);
            assert_eq!(rt; copied, (Ok(size), true), "{size} bytes in {pieces:?}");
        }
    }
    Ok(())
}

// A response that comes in these pieces, and goes out in writes of two bytes: the read that fails, the write that fails, the answer,
// and what went out.
type Failing = (
    &'static [usize],
    Option<(u64, WireFault)>,
    Option<(u64, WireFault)>,
    Result<u64, CopyFault>,
    &'static [u8],
);

const fn failing(fault: WireFault) -> [Failing; 7] {
    [
        (
            &[2],
            Some((0, fault)),
            None,
            Err(CopyFault::NoResponse(fault)),
            b"",
        ),
        (
            &[2],
            Some((1, fault)),
            None,
            Err(CopyFault::CutShort(fault)),
            b"re",
        ),
        (
            &[2],
            Some((2, fault)),
            None,
            Err(CopyFault::CutShort(fault)),
            b"resp",
        ),
        (&[2], Some((3, fault)), None, Ok(4), b"resp"),
        (
            &[],
            None,
            Some((0, fault)),
            Err(CopyFault::Client(fault)),
            b"",
        ),
        (
            &[],
            None,
            Some((1, fault)),
            Err(CopyFault::Client(fault)),
            b"re",
        ),
        (&[], None, Some((2, fault)), Ok(4), b"resp"),
    ]
}

#[test]
fn a_fault_in_a_response_is_told(rt: HostRuntime) {
    for fault in [WireFault::Timeout, WireFault::Broken] {
        for (pieces, failing_read, failing_write, expected, written) in &failing(fault) {
            let reading = Script {
                pieces,
                failing_read: *failing_read,
                ..Script::SMOOTH
            };
            let writing = Script {
                most_written: 2,
                failing_write: *failing_write,
                ..Script::SMOOTH
            };
            let copied = copied(rt.alloc(), b"resp", reading, writing, written);
            assert_eq!(rt;
                copied,
                (*expected, true),
                "{failing_read:?}, {failing_write:?}"
            );
        }
    }
}

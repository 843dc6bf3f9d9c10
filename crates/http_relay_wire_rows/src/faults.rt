use crate::sending::send_through;
use http_relay_body::{BodyFault, CopyFault};
use http_relay_forward::BodyKind;
use http_relay_head::{HEAD_ROOM, HeadFault, read_head};
use http_relay_wire::{Script, ScriptedWire, WireFault};
use std::alloc::Global;
use std::net::Ipv4Addr;

const CHUNKS: BodyKind = BodyKind::Chunked;

/// A head of 99 bytes.
const UPLOAD: &[u8] =
    b"POST /up HTTP/1.1\r\nHost: x\r\nConnection: keep-alive, X-Foo\r\nX-Foo: 1\r\nTransfer-Encoding: chunked\r\n\r\n";

// What the head of a request gives through this wire.
fn head_kind(alloc: Global, script: Script) -> Result<BodyKind, HeadFault> {
    let mut wire = ScriptedWire::new(alloc, UPLOAD, script);
    let mut room = [0; HEAD_ROOM];
    let head = read_head(alloc, &mut wire, &mut room, Ipv4Addr::new(10, 0, 0, 7))?;
    Ok(head.body_kind())
}

// The head comes in pieces of ten bytes, in ten reads.
#[test]
fn each_read_of_a_head_fails_in_turn(rt: HostRuntime) {
    for fault in [WireFault::Timeout, WireFault::Broken] {
        for at in 0..11 {
            let script = Script {
                pieces: &[10],
                failing_read: Some((at, fault)),
                ..Script::SMOOTH
            };
            let expected = if at < 10 {
                Err(HeadFault::Wire(fault))
            } else {
                Ok(CHUNKS)
            };
            assert!(rt; head_kind(rt.alloc(), script) == expected, "read {at}");
        }
    }
}

// A body, the bytes of each read and each write, and how many of them fail in turn. So many bytes were read or written before.
const BODIES: &[(BodyKind, &[u8], usize, u64)] = &[
    (BodyKind::Length(7), b"1234567", 1, 7),
    (CHUNKS, b"10\r\n0123456789abcdef\r\n0\r\n\r\n", 1, 27),
    (BodyKind::Length(2), b"0\r\n\r\n", 1000, 1),
    (CHUNKS, b"0\r\n\r\n", 1000, 1),
];

// Whether the read of this number fails so, and with as many bytes gone out as are owed: of a chunked body a line goes out when it is
// whole.
fn is_read_fault(
    alloc: Global,
    kind: BodyKind,
    body: &[u8],
    piece: usize,
    failing: (u64, WireFault),
) -> bool {
    let (at, fault) = failing;
    let reading = Script {
        pieces: &[piece],
        failing_read: Some(failing),
        ..Script::SMOOTH
    };
    let (answer, sent) = send_through(alloc, kind, body, reading, Script::SMOOTH);
    let is_sent = match sent {
        Some(sent) => sent == at || (kind == CHUNKS && sent < at),
        None => false,
    };
    answer == Err(BodyFault::Client(fault)) && is_sent
}

// Whether the write of this number fails so, and all that was written before went out.
fn is_write_fault(
    alloc: Global,
    kind: BodyKind,
    body: &[u8],
    most_written: usize,
    failing: (u64, WireFault),
) -> bool {
    let (at, fault) = failing;
    let writing = Script {
        most_written,
        failing_write: Some(failing),
        ..Script::SMOOTH
    };
    let (answer, sent) = send_through(alloc, kind, body, Script::SMOOTH, writing);
    answer == Err(BodyFault::Server(fault)) && sent == Some(at)
}

#[test]
fn each_read_and_each_write_of_a_body_fails_in_turn(rt: HostRuntime) {
    for fault in [WireFault::Timeout, WireFault::Broken] {
        for (kind, body, piece, count) in BODIES {
            for at in 0..*count {
                let read_fails = is_read_fault(rt.alloc(), *kind, body, *piece, (at, fault));
                let write_fails = is_write_fault(rt.alloc(), *kind, body, *piece, (at, fault));
                assert!(rt; read_fails && write_fails, "{kind:?}, at {at}");
            }
        }
    }
}

#[test]
fn faults_have_their_numbers(rt: HostRuntime) {
    let cases = [
        (HeadFault::HeadTooLarge.number(), Some(90)),
        (HeadFault::BadHead.number(), Some(91)),
        (HeadFault::Truncated.number(), Some(92)),
        (HeadFault::Wire(WireFault::Timeout).number(), Some(93)),
        (HeadFault::BothLengths.number(), Some(95)),
        (HeadFault::Memory.number(), None),
        (Some(BodyFault::Truncated.number()), Some(92)),
        (
            Some(BodyFault::Client(WireFault::Timeout).number()),
            Some(93),
        ),
        (
            Some(BodyFault::Server(WireFault::Broken).number()),
            Some(93),
        ),
        (Some(BodyFault::BadChunk.number()), Some(94)),
        (
            Some(CopyFault::NoResponse(WireFault::Timeout).number()),
            Some(93),
        ),
        (
            Some(CopyFault::NoResponse(WireFault::Broken).number()),
            Some(93),
        ),
        (
            Some(CopyFault::CutShort(WireFault::Timeout).number()),
            Some(93),
        ),
        (
            Some(CopyFault::CutShort(WireFault::Broken).number()),
            Some(93),
        ),
        (
            Some(CopyFault::Client(WireFault::Timeout).number()),
            Some(93),
        ),
        (
            Some(CopyFault::Client(WireFault::Broken).number()),
            Some(93),
        ),
    ];
    for (number, expected) in &cases {
        assert!(rt; number == expected, "{expected:?}");
    }
}

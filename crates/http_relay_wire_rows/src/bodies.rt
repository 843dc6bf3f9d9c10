use crate::sending::send_through;
use http_relay_body::{BodyFault, send_body};
use http_relay_forward::BodyKind;
use http_relay_wire::{Script, ScriptedWire, WireFault};
use std::alloc::{AllocError, Global};
use std::test::Fail;

const CHUNKS: BodyKind = BodyKind::Chunked;

const SEVEN: &[u8] = b"1234567";

const CHUNKED: &[u8] = b"10\r\n0123456789abcdef\r\n0\r\n\r\n";

// Bodies.
const GOOD_BODIES: &[(BodyKind, &[u8])] = &[
    (BodyKind::Empty, b""),
    (BodyKind::Length(0), b""),
    (BodyKind::Length(2), b"hi"),
    (BodyKind::Length(5), b"0\r\n\r\n"),
    (BodyKind::Length(7), SEVEN),
    (CHUNKS, CHUNKED),
    (CHUNKS, b"0\r\n\r\n"),
    (CHUNKS, b"000\r\n\r\n"),
    (CHUNKS, b"0;last\r\n\n"),
    (CHUNKS, b"1\r\nx\r\n2\r\nyz\r\n0\r\n\r\n"),
    (CHUNKS, b"1;a=b;c=\"d\"\r\nx\r\n0\r\nX-T: 1\r\nY: \r\n\r\n"),
    (CHUNKS, b"2;x\r\nhi\r\n0\r\nX: 1\r\n\r\n"),
    (CHUNKS, b"0A \t\r\n\r\n\r\n\r\n\r\n\r\n\r\n0\r\n\r\n"),
    (CHUNKS, b"0000000000000001\r\nx\r\n0\r\n\r\n"),
];

// The bytes that a client sends in pieces.
const PIECES: &[&[usize]] = &[&[], &[1], &[3, 2], &[2, 5]];

// A client that behaves well.
fn in_pieces(pieces: &[usize]) -> Script<'_> {
    Script {
        pieces,
        ..Script::SMOOTH
    }
}

// Whether the body goes out whole, of which these bytes come after the head and the rest from the client, and what is left of that
// stays unread.
fn is_sent(
    alloc: Global,
    kind: BodyKind,
    body: &[u8],
    behind: &[u8],
    rest: &[u8],
    script: Script,
    left: &[u8],
) -> bool {
    let mut client = ScriptedWire::new(alloc, rest, script);
    let mut server = ScriptedWire::new(alloc, b"", Script::SMOOTH);
    let answer = send_body(kind, behind, &mut client, &mut server);
    answer == Ok(()) && server.written() == body && client.unread() == left
}

// After how many bytes of the input the head's bytes end where its body isn't sent, if there is such a place.
fn failing_cut(
    alloc: Global,
    kind: BodyKind,
    body: &[u8],
    input: &[u8],
    script: Script,
) -> Option<usize> {
    for at in 0..input.len() {
        let (behind, rest) = input.split_at(at);
        let (_, left) = input.split_at(at.max(body.len()).min(input.len()));
        if !is_sent(alloc, kind, body, behind, rest, script, left) {
            return Some(at);
        }
    }
    None
}

// A body before more bytes.
fn with_more(alloc: Global, body: &[u8]) -> Result<Vec<u8>, AllocError> {
    let mut input = Vec::from_slice(alloc, body)?;
    input.extend_from_slice(b"GET /")?;
    Ok(input)
}

// Each body stands before more bytes; the first of all of them came with the head, and the others come in these pieces.
#[test]
fn bodies_are_sent_and_nothing_behind_them_is_read(rt: HostRuntime) -> Result<(), Fail> {
    for (kind, body) in GOOD_BODIES {
        let input = with_more(rt.alloc(), body)?;
        for pieces in PIECES {
            let failing = failing_cut(rt.alloc(), *kind, body, &input, in_pieces(pieces));
            assert_eq!(rt; failing, None, "{kind:?}, {body:?} in {pieces:?}");
        }
    }
    Ok(())
}

// A body of 40,000 bytes between these.
fn long_body(alloc: Global, front: &[u8], end: &[u8]) -> Result<Vec<u8>, AllocError> {
    let mut body = Vec::from_slice(alloc, front)?;
    for _ in 0..40_000 {
        body.push(b'x')?;
    }
    body.extend_from_slice(end)?;
    Ok(body)
}

// The bytes go through a room of 16384.
#[test]
fn bodies_longer_than_the_room_are_sent(rt: HostRuntime) -> Result<(), Fail> {
    let bodies: &[(BodyKind, &[u8], &[u8])] = &[
        (BodyKind::Length(40_000), b"", b""),
        (CHUNKS, b"9c40\r\n", b"\r\n0\r\n\r\n"),
    ];
    for (kind, front, end) in bodies {
        let body = long_body(rt.alloc(), front, end)?;
        for pieces in [[].as_slice(), &[5000]] {
            let is_sent = is_sent(rt.alloc(), *kind, &body, b"", &body, in_pieces(pieces), b"");
            assert!(rt; is_sent, "{kind:?} in {pieces:?}");
        }
    }
    Ok(())
}

// No read may be made.
#[test]
fn where_no_byte_is_wanted_nothing_is_read(rt: HostRuntime) {
    let broken = Err(BodyFault::Client(WireFault::Broken));
    let unread = Script {
        reads: 0,
        ..Script::SMOOTH
    };
    for (kind, expected) in [
        (BodyKind::Empty, Ok(())),
        (BodyKind::Length(0), Ok(())),
        (BodyKind::Length(1), broken),
        (CHUNKS, broken),
    ] {
        let (answer, _) = send_through(rt.alloc(), kind, SEVEN, unread, Script::SMOOTH);
        assert_eq!(rt; answer, expected, "{kind:?}");
    }
}

// Bytes that may still become a body are cut short, and bytes that can become none are refused, also inside a line. The first size of
// two rows is 2^64 - 1.
const BAD_BODIES: &[(BodyKind, &[u8], BodyFault)] = &[
    (CHUNKS, b"", BodyFault::Truncated),
    (CHUNKS, b"1\r", BodyFault::Truncated),
    (CHUNKS, b"1\r\nx\r", BodyFault::Truncated),
    (CHUNKS, b"0\r\n\r", BodyFault::Truncated),
    (CHUNKS, b"0\r\nX", BodyFault::Truncated),
    (CHUNKS, b"0\r\nX:", BodyFault::Truncated),
    (CHUNKS, b"0\r\nX: 1\r", BodyFault::Truncated),
    (CHUNKS, b"0\r\nX: 1\r\nY", BodyFault::Truncated),
    (CHUNKS, b"1;a", BodyFault::Truncated),
    (CHUNKS, b"1 ", BodyFault::Truncated),
    (CHUNKS, b"0\r\nX: 1\r\n", BodyFault::Truncated),
    (
        CHUNKS,
        b"ffffffffffffffff\r\nx\r\n0\r\n\r\n",
        BodyFault::Truncated,
    ),
    (
        CHUNKS,
        b"FFFFFFFFFFFFFFFF\r\nx\r\n0\r\n\r\n",
        BodyFault::Truncated,
    ),
    (CHUNKS, b"2\r\nhi\r\n", BodyFault::Truncated),
    (BodyKind::Length(3), b"hi", BodyFault::Truncated),
    (CHUNKS, b"hi", BodyFault::BadChunk),
    (CHUNKS, b"2\r\nhi0\r\n\r\n", BodyFault::BadChunk),
    (CHUNKS, b"\r\n", BodyFault::BadChunk),
    (CHUNKS, b"g\r\n", BodyFault::BadChunk),
    (CHUNKS, b"-1\r\n", BodyFault::BadChunk),
    (CHUNKS, b"0x1\r\n", BodyFault::BadChunk),
    (CHUNKS, b" 1\r\n", BodyFault::BadChunk),
    (CHUNKS, b"1\nx\r\n0\r\n\r\n", BodyFault::BadChunk),
    (CHUNKS, b"1\rx", BodyFault::BadChunk),
    (CHUNKS, b"1 2\r\n", BodyFault::BadChunk),
    (
        CHUNKS,
        b"00000000000000001\r\nx\r\n0\r\n\r\n",
        BodyFault::BadChunk,
    ),
    (
        CHUNKS,
        b"fffffffffffffffff\r\nx\r\n0\r\n\r\n",
        BodyFault::BadChunk,
    ),
    (CHUNKS, b"1\r\nxy\r\n0\r\n\r\n", BodyFault::BadChunk),
    (CHUNKS, b"1\r\nx\n0\r\n\r\n", BodyFault::BadChunk),
    (CHUNKS, b"1\r\nx\r0\r\n\r\n", BodyFault::BadChunk),
    (CHUNKS, b"1\r\nx\r\r\n0\r\n\r\n", BodyFault::BadChunk),
    (CHUNKS, b"1;a\nb\r\nx\r\n0\r\n\r\n", BodyFault::BadChunk),
    (CHUNKS, b"0\r\nX : 1\r\n\r\n", BodyFault::BadChunk),
    (CHUNKS, b"0\r\nX: \x001\r\n\r\n", BodyFault::BadChunk),
    (CHUNKS, b"0\r\n folded\r\n\r\n", BodyFault::BadChunk),
    (CHUNKS, b"zz", BodyFault::BadChunk),
    (CHUNKS, b"1\r\nxy", BodyFault::BadChunk),
    (CHUNKS, b"0\r\n:", BodyFault::BadChunk),
    (CHUNKS, b"0\r\nX ", BodyFault::BadChunk),
    (CHUNKS, b"0\r\nX: \x00", BodyFault::BadChunk),
    (CHUNKS, b"0\r\nX: 1\r2", BodyFault::BadChunk),
    (CHUNKS, b"0\r\nX: 1\r\n y", BodyFault::BadChunk),
    (CHUNKS, b"0\r\n\rX", BodyFault::BadChunk),
];

#[test]
fn bad_bodies_are_told_by_their_faults(rt: HostRuntime) {
    for (kind, input, fault) in BAD_BODIES {
        for pieces in [[].as_slice(), &[1]] {
            let client = in_pieces(pieces);
            let (answer, sent) = send_through(rt.alloc(), *kind, input, client, Script::SMOOTH);
            assert!(rt;
                answer == Err(*fault) && sent.is_some(),
                "{kind:?}, {input:?} in {pieces:?}"
            );
        }
    }
}

// Nothing is waited for after bytes that can become no body: so a read that fails after them is never made.
#[test]
fn bad_bodies_are_told_before_the_client_fails(rt: HostRuntime) {
    for (kind, input, fault) in BAD_BODIES {
        let failing = Script {
            pieces: &[1],
            reads: input.len() as u64,
            ..Script::SMOOTH
        };
        let due = match *fault {
            BodyFault::Truncated => BodyFault::Client(WireFault::Broken),
            other => other,
        };
        let (answer, _) = send_through(rt.alloc(), *kind, input, failing, Script::SMOOTH);
        assert_eq!(rt; answer, Err(due), "{kind:?}, {input:?}");
    }
}

// Whether a client that ends after these bytes is cut short there, and what is owed of them went out: all of a body that has a
// length.
fn is_cut_short(alloc: Global, kind: BodyKind, front: &[u8]) -> bool {
    let mut client = ScriptedWire::new(alloc, front, Script::SMOOTH);
    let mut server = ScriptedWire::new(alloc, b"", Script::SMOOTH);
    let answer = send_body(kind, b"", &mut client, &mut server);
    let is_sent = if kind == CHUNKS {
        front.starts_with(server.written())
    } else {
        server.written() == front
    };
    answer == Err(BodyFault::Truncated) && is_sent && client.unread().is_empty()
}

#[test]
fn a_client_that_ends_inside_its_body_is_cut_short(rt: HostRuntime) {
    for (kind, body) in [(BodyKind::Length(7), SEVEN), (CHUNKS, CHUNKED)] {
        for end in 0..body.len() {
            let (front, _) = body.split_at(end);
            assert!(rt;
                is_cut_short(rt.alloc(), kind, front),
                "{kind:?}, end at {end}"
            );
        }
    }
}

// A hundred chunks of this content, each after its line, and the end.
fn hundred_chunks(
    alloc: Global,
    line: &[u8],
    content: &[u8],
    end: &[u8],
) -> Result<Vec<u8>, AllocError> {
    let mut input = Vec::new(alloc);
    for _ in 0..100 {
        input.extend_from_slice(line)?;
        input.extend_from_slice(content)?;
        input.extend_from_slice(b"\r\n")?;
    }
    input.extend_from_slice(end)?;
    Ok(input)
}

// Whether so many reads and writes are enough for these chunks.
fn is_enough(alloc: Global, input: &[u8], reads: u64, writes: u64) -> bool {
    let limited = Script {
        reads,
        ..Script::SMOOTH
    };
    let failing = Script {
        failing_write: Some((writes, WireFault::Broken)),
        ..Script::SMOOTH
    };
    let (answer, _) = send_through(alloc, CHUNKS, input, limited, failing);
    answer.is_ok()
}

// As many reads and writes as these are enough, and one fewer is not. The first read takes the 4 bytes that the shortest body has,
// and each other one the rest of its chunk and 4 bytes after it. So a last chunk with a trailer of one line feed has come with the
// chunk before it, and CR LF costs one read more. What was judged goes out before each read but the first two, and at the end.
#[test]
fn a_chunk_costs_one_read_and_one_write(rt: HostRuntime) -> Result<(), Fail> {
    let alloc = rt.alloc();
    let content = [b'x'; 16000];
    let bodies: &[(&[u8], usize, &[u8], u64, u64)] = &[
        (b"3e8\r\n", 1000, b"0\r\n\r\n", 102, 101),
        (b"3e8\r\n", 1000, b"0\r\n\n", 101, 100),
        (b"3e80\r\n", 16000, b"0\r\n\n", 101, 100),
    ];
    for (line, size, end, reads, writes) in bodies {
        let input = hundred_chunks(alloc, line, &content[..*size], end)?;
        let answers = (
            is_enough(alloc, &input, *reads, *writes),
            is_enough(alloc, &input, reads.saturating_sub(1), *writes),
            is_enough(alloc, &input, *reads, writes.saturating_sub(1)),
        );
        assert_eq!(rt; answers, (true, false, false), "{size}");
    }
    Ok(())
}

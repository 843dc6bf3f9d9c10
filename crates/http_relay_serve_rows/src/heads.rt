use http_relay_forward::BodyKind;
use http_relay_head::{HEAD_ROOM, HeadFault, read_head};
use http_relay_wire::{Script, ScriptedWire};
use std::alloc::{AllocError, Global};
use std::net::Ipv4Addr;
use std::process::Abort;

type Verdict = Result<BodyKind, HeadFault>;

const BAD: Verdict = Err(HeadFault::BadHead);

const BOTH: Verdict = Err(HeadFault::BothLengths);

const CUT: Verdict = Err(HeadFault::Truncated);

const LARGE: Verdict = Err(HeadFault::HeadTooLarge);

const NONE: Verdict = Ok(BodyKind::Empty);

const CHUNKS: Verdict = Ok(BodyKind::Chunked);

const THREE: Verdict = Ok(BodyKind::Length(3));

// The verdict on a client that sends these bytes in these pieces and ends.
fn verdict(alloc: Global, bytes: &[u8], pieces: &[usize]) -> Verdict {
    let script = Script {
        pieces,
        ..Script::SMOOTH
    };
    let mut wire = ScriptedWire::new(alloc, bytes, script);
    let mut room = [0; HEAD_ROOM];
    let head = read_head(alloc, &mut wire, &mut room, Ipv4Addr::new(10, 0, 0, 7))?;
    Ok(head.body_kind())
}

// Whether this is the verdict on a front, so many times the middle, and the end, in whatever pieces they come.
fn is_told<R: AllocGlobal + Abort>(
    rt: &R,
    front: &[u8],
    (middle, times): (&[u8], usize),
    end: &[u8],
    expected: Verdict,
) -> bool {
    let mut bytes = Vec::new(rt.alloc());
    repeat(front, middle, times, end, &mut bytes).expect(rt, "memory");
    PIECES
        .iter()
        .all(|pieces| verdict(rt.alloc(), &bytes, *pieces) == expected)
}

// The pieces in which heads come.
const PIECES: &[&[usize]] = &[&[], &[1], &[40, 7]];

// Adds a front, so many times the middle, and the end.
fn repeat(
    front: &[u8],
    middle: &[u8],
    times: usize,
    end: &[u8],
    bytes: &mut Vec<u8>,
) -> Result<(), AllocError> {
    bytes.extend_from_slice(front)?;
    for _ in 0..times {
        bytes.extend_from_slice(middle)?;
    }
    bytes.extend_from_slice(end)
}

const POST: &[u8] = b"POST /p HTTP/1.1\r\n";

// Lines of a head of HTTP/1.1 that say nothing of a body.
const NO_BODY: &[(&[u8], Verdict)] = &[
    (b"", NONE),
    (b"Host: x\r\n", NONE),
    (b"Host: x\r\nHost: y\r\n", NONE),
    (b"Host: x\n", NONE),
    (b"X: \xff\r\n", NONE),
    (b"X-Transfer-Encoding: chunked\r\n", NONE),
    (b"X-Content-Length: 3\r\n", NONE),
    (b"Connection: close, x-host, hosts\r\n", NONE),
    (b"Connection: Connection\r\n", NONE),
];

// Lines of one length, or of chunks.
const LENGTHS_AND_CHUNKS: &[(&[u8], Verdict)] = &[
    (b"Content-Length: 3\r\n", THREE),
    (b"content-length:3\r\n", THREE),
    (b"CONTENT-LENGTH: \t 3\t \r\n", THREE),
    (b"Content-Length: 3\nX: 1\n", THREE),
    (b"Content-Length: 3\r\nContent-Length: 3\r\n", THREE),
    (b"Content-Length: 3\r\nContent-Length: 003\r\n", THREE),
    (b"Content-Length: 000000000000000003\r\n", THREE),
    (b"Content-Length: 0\r\n", Ok(BodyKind::Length(0))),
    (
        b"Content-Length: 999999999999999999\r\n",
        Ok(BodyKind::Length(999_999_999_999_999_999)),
    ),
    (b"Transfer-Encoding: chunked\r\n", CHUNKS),
    (b"Transfer-Encoding: Chunked\r\n", CHUNKS),
    (b"Content-Length: 003\r\ncontent-length:  3\r\n", THREE),
    (b"transfer-encoding:\tCHUNKED \r\n", CHUNKS),
];

// Two lengths, or a length beside chunks. A bad length is reported first.
const BESIDE_A_LENGTH: &[(&[u8], Verdict)] = &[
    (b"Content-Length: 3\r\nContent-Length: 4\r\n", BOTH),
    (
        b"Content-Length: 3\r\nContent-Length: 3\r\nContent-Length: 4\r\n",
        BOTH,
    ),
    (b"Content-Length: 4\r\nX: 1\r\ncontent-length: 3\r\n", BOTH),
    (b"Content-Length: 3\r\nTransfer-Encoding: chunked\r\n", BOTH),
    (b"Transfer-Encoding: chunked\r\nContent-Length: 3\r\n", BOTH),
    (b"Transfer-Encoding: chunked\r\nContent-Length: 0\r\n", BOTH),
    (b"Content-Length: 3\r\nContent-Length: x\r\n", BAD),
    (b"Content-Length: x\r\nTransfer-Encoding: chunked\r\n", BAD),
];

// Lengths that are none.
const NO_LENGTHS: &[(&[u8], Verdict)] = &[
    (b"Content-Length:\r\n", BAD),
    (b"Content-Length: +3\r\n", BAD),
    (b"Content-Length: -3\r\n", BAD),
    (b"Content-Length: 3, 3\r\n", BAD),
    (b"Content-Length: 3,4\r\n", BAD),
    (b"Content-Length: 0x3\r\n", BAD),
    (b"Content-Length: 3 3\r\n", BAD),
    (b"Content-Length: 3a\r\n", BAD),
    (b"Content-Length: 3.0\r\n", BAD),
    (b"Content-Length: 3;\r\n", BAD),
    (b"Content-Length: \"3\"\r\n", BAD),
    (b"Content-Length: \xd9\xa3\r\n", BAD),
    (b"Content-Length: 0000000000000000003\r\n", BAD),
    (b"Content-Length: 18446744073709551619\r\n", BAD),
];

// Codings that are not the one.
const OTHER_CODINGS: &[(&[u8], Verdict)] = &[
    (b"Transfer-Encoding:\r\n", BAD),
    (b"Transfer-Encoding: identity\r\n", BAD),
    (b"Transfer-Encoding: gzip\r\n", BAD),
    (b"Transfer-Encoding: gzip, chunked\r\n", BAD),
    (b"Transfer-Encoding: chunked, identity\r\n", BAD),
    (b"Transfer-Encoding: chunked, chunked\r\n", BAD),
    (b"Transfer-Encoding: chunked,\r\n", BAD),
    (b"Transfer-Encoding: xchunked\r\n", BAD),
    (b"Transfer-Encoding: chunked;a=1\r\n", BAD),
    (b"Transfer-Encoding: \"chunked\"\r\n", BAD),
    (
        b"Transfer-Encoding: chunked\r\nTransfer-Encoding: chunked\r\n",
        BAD,
    ),
    (
        b"Transfer-Encoding: chunked\r\nTransfer-Encoding: identity\r\n",
        BAD,
    ),
    (b"Transfer-Encoding: gzip\r\nContent-Length: 3\r\n", BAD),
    (b"Transfer-Encoding: \x0bchunked\r\n", BAD),
];

// Connection must not take the host or the body away.
const CONNECTIONS: &[(&[u8], Verdict)] = &[
    (b"Connection: host\r\nHost: x\r\n", BAD),
    (b"Connection: Host\r\n", BAD),
    (b"Connection: content-length\r\nContent-Length: 3\r\n", BAD),
    (b"Connection: close ,\tTRANSFER-ENCODING\r\n", BAD),
    (b"Connection: close\r\nX: 1\r\nconnection: Host\r\n", BAD),
];

// Lines that readers part differently.
const PARTED_LINES: &[(&[u8], Verdict)] = &[
    (b"Content-Length : 3\r\n", BAD),
    (b"Transfer-Encoding\t: chunked\r\n", BAD),
    (b" Host: x\r\n", BAD),
    (b"X: 1\r\n 2\r\n", BAD),
    (b"X: 1\r\n\tTransfer-Encoding: chunked\r\n", BAD),
    (b"Bad Name: 1\r\n", BAD),
    (b": 1\r\n", BAD),
    (b"Host\r\n", BAD),
];

// Bytes that stand in no name or no value, some of them line ends to other readers.
const OTHER_BYTES: &[(&[u8], Verdict)] = &[
    (b"X: a\0b\r\n", BAD),
    (b"X\0: 1\r\n", BAD),
    (b"X: a\rContent-Length: 3\r\n", BAD),
    (b"X: 1\r\r\n", BAD),
    (b"X: \x7f\r\n", BAD),
    (b"X: 1\x0c\r\n", BAD),
    (b"X(: 1\r\n", BAD),
    (b"\xffX: 1\r\n", BAD),
];

// Whole heads with different versions and bodies.
const VERSIONS_AND_BODIES: &[(&[u8], Verdict)] = &[
    (b"GET / HTTP/1.1\r\n\r\n", NONE),
    (b"GET / HTTP/1.0\n\n", NONE),
    (b"\r\n\n\r\nGET / HTTP/1.1\r\n\r\n", NONE),
    (b"connect x:443 HTTP/1.1\r\n\r\n", NONE),
    (b"GET http://h/a?b HTTP/1.1\r\n\r\n", NONE),
    (b"POST / HTTP/1.0\r\nContent-Length: 3\r\n\r\n", THREE),
    (
        b"PUT / HTTP/1.0\r\ncontent-length:  010 \r\n\r\n",
        Ok(BodyKind::Length(10)),
    ),
    (b"PUT / HTTP/1.0\r\nTransfer-Encoding: Chunked\r\n\r\n", BAD),
    (
        b"POST / HTTP/1.0\r\nTransfer-Encoding: chunked\r\n\r\n",
        BAD,
    ),
    (b"CONNECT x:443 HTTP/1.1\r\n\r\n", BAD),
    (
        b"CONNECT x:443 HTTP/1.1\r\nContent-Length: 3\r\nContent-Length: 4\r\n\r\n",
        BAD,
    ),
    (b"GET / HTTP/1.2\r\n\r\n", BAD),
    (b"GET / HTTP/2.0\r\n\r\n", BAD),
    (b"GET / http/1.1\r\n\r\n", BAD),
];

// Whole heads whose first lines are none.
const FIRST_LINES: &[(&[u8], Verdict)] = &[
    (b"GET /\r\n\r\n", BAD),
    (b"GET  / HTTP/1.1\r\n\r\n", BAD),
    (b"GET\t/ HTTP/1.1\r\n\r\n", BAD),
    (b"GET / HTTP/1.1 \r\n\r\n", BAD),
    (b"GET / x HTTP/1.1\r\n\r\n", BAD),
    (b" GET / HTTP/1.1\r\n\r\n", BAD),
    (b"GE(T / HTTP/1.1\r\n\r\n", BAD),
    (b"GET /\0 HTTP/1.1\r\n\r\n", BAD),
    (b"GET /\xff HTTP/1.1\r\n\r\n", BAD),
    (b"\rGET / HTTP/1.1\r\n\r\n", BAD),
];

// Less than a head.
const CUT_HEADS: &[(&[u8], Verdict)] = &[
    (b"", CUT),
    (b"\r\n", CUT),
    (b"GET / HTT", CUT),
    (b"GET / HTTP/1.1\r\n", CUT),
    (b"GET / HTTP/1.1\r\nHost: x\r\n", CUT),
    (b"GET / HTTP/1.1\r\nHost: x\r\n\r", CUT),
];

// What comes before and after each row of a table.
const TABLES: &[(&[u8], &[u8], &[(&[u8], Verdict)])] = &[
    (POST, b"\r\n", NO_BODY),
    (POST, b"\r\n", LENGTHS_AND_CHUNKS),
    (POST, b"\r\n", BESIDE_A_LENGTH),
    (POST, b"\r\n", NO_LENGTHS),
    (POST, b"\r\n", OTHER_CODINGS),
    (POST, b"\r\n", CONNECTIONS),
    (POST, b"\r\n", PARTED_LINES),
    (POST, b"\r\n", OTHER_BYTES),
    (b"", b"", VERSIONS_AND_BODIES),
    (b"", b"", FIRST_LINES),
    (b"", b"", CUT_HEADS),
];

#[test]
fn heads_and_their_verdicts(rt: HostRuntime) {
    for (front, end, rows) in TABLES {
        for (row, expected) in *rows {
            assert!(rt; is_told(&rt, front, (row, 1), end, *expected), "{row:?}");
        }
    }
}

const GET: &[u8] = b"GET / HTTP/1.1\r\nXxx: ";

// A front, so many times the middle, the end, and the verdict.
type Repeated = (&'static [u8], &'static [u8], usize, &'static [u8], Verdict);

// Heads at the limits of 16384 bytes and 100 fields, and beyond.
const REPEATED: &[Repeated] = &[
    (GET, b"x", 16359, b"\r\n\r\n", NONE),
    (GET, b"x", 16360, b"\r\n\r\n", LARGE),
    (GET, b"x", 39975, b"\r\n\r\n", LARGE),
    (POST, b"X: 1\r\n", 100, b"\r\n", NONE),
    (POST, b"X: 1\r\n", 101, b"\r\n", LARGE),
    // Heads with two faults. Of the parser's faults, fields beyond the limit are 90 and any other error 91, whichever it meets first.
    // What the rules refuse is judged in a head that was parsed.
    (POST, b"X: 1\r\n", 101, b"Bad Name: 1\r\n\r\n", LARGE),
    (POST, b"X: 1\r\n", 101, b"Host\r\n\r\n", LARGE),
    (POST, b"X: 1\r\n", 101, b"X: a\0b\r\n\r\n", LARGE),
    (POST, b"X: 1\r\n", 100, b"Bad Name: 1\r\n\r\n", BAD),
    (
        b"POST /p HTTP/1.1\r\nBad Name: 1\r\n",
        b"X: 1\r\n",
        101,
        b"\r\n",
        BAD,
    ),
    (
        b"POST /p HTTP/1.1\r\nHost\r\n",
        b"X: 1\r\n",
        101,
        b"\r\n",
        BAD,
    ),
    (b"POST /p HTTP/1.2\r\n", b"X: 1\r\n", 101, b"\r\n", BAD),
    (
        b"CONNECT x:443 HTTP/1.1\r\n",
        b"X: 1\r\n",
        101,
        b"\r\n",
        LARGE,
    ),
    (
        b"CONNECT x:443 HTTP/1.1\r\n",
        b"X: 1\r\n",
        100,
        b"\r\n",
        BAD,
    ),
    (
        POST,
        b"X: 1\r\n",
        99,
        b"Content-Length: 3\r\nContent-Length: 4\r\n\r\n",
        LARGE,
    ),
    (
        POST,
        b"X: 1\r\n",
        98,
        b"Content-Length: 3\r\nContent-Length: 4\r\n\r\n",
        BOTH,
    ),
    (
        POST,
        b"X: 1\r\n",
        100,
        b"Transfer-Encoding: gzip\r\n\r\n",
        LARGE,
    ),
    (
        POST,
        b"X: 1\r\n",
        99,
        b"Transfer-Encoding: gzip\r\n\r\n",
        BAD,
    ),
];

#[test]
fn heads_at_the_limits_and_of_two_faults(rt: HostRuntime) {
    for (front, middle, times, end, expected) in REPEATED {
        assert!(rt;
            is_told(&rt, front, (middle, *times), end, *expected),
            "{front:?}, {times} times, {end:?}"
        );
    }
}

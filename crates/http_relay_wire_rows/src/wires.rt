ghost use Rattle.std.specs.Prelude.{◌≤◌, IfOk};

use http_relay_wire::{FaultCounts, Script, ScriptedWire, SocketWire, Wire, WireFault, write_all};
use std::alloc::Global;
use std::io;
use std::io::{ErrorKind, Read, Write};

/// What a read answers: how many bytes came, and the first of them.
pub(crate) type Given = Result<(usize, u8), WireFault>;

const TIMEOUT: WireFault = WireFault::Timeout;

const BROKEN: WireFault = WireFault::Broken;

// What a read of at most four bytes gives, as far as it was filled.
fn read_some(wire: &mut impl Wire) -> Given {
    let mut buffer = [0; 4];
    let count = wire.read(&mut buffer)?;
    Ok((count, buffer[0]))
}

// The next reads give this.
pub(crate) fn gives(wire: &mut impl Wire, expected: &[Given]) -> bool {
    for given in expected {
        if read_some(wire) != *given {
            return false;
        }
    }
    true
}

fn timed_out_reads(count: u64) -> FaultCounts {
    FaultCounts {
        reads_timed_out: count,
        ..FaultCounts::default()
    }
}

fn broken_reads(count: u64) -> FaultCounts {
    FaultCounts {
        reads_broken: count,
        ..FaultCounts::default()
    }
}

// Whether reads of these bytes give this, and leave these bytes and these counts.
fn is_read(
    alloc: Global,
    input: &[u8],
    script: Script,
    expected: &[Given],
    unread: &[u8],
    counts: FaultCounts,
) -> bool {
    let mut wire = ScriptedWire::new(alloc, input, script);
    gives(&mut wire, expected) && wire.unread() == unread && wire.faults() == counts
}

// Bytes come in the pieces of the script. A read fails where the script says, and loses nothing; with no read left it is broken.
#[test]
fn reads_are_as_the_script_says(rt: HostRuntime) {
    let in_pieces = Script {
        pieces: &[2, 0],
        ..Script::SMOOTH
    };
    let with_timeout = Script {
        pieces: &[3],
        failing_read: Some((1, TIMEOUT)),
        ..Script::SMOOTH
    };
    let with_break = Script {
        failing_read: Some((1, BROKEN)),
        ..with_timeout
    };
    let with_one_read = Script {
        reads: 1,
        ..Script::SMOOTH
    };
    let cases = [
        (
            b"abcdefgh".as_slice(),
            in_pieces,
            [
                Ok((2, b'a')),
                Ok((1, b'c')),
                Ok((2, b'd')),
                Ok((1, b'f')),
                Ok((2, b'g')),
                Ok((0, 0)),
                Ok((0, 0)),
            ]
            .as_slice(),
            b"".as_slice(),
            FaultCounts::default(),
        ),
        (
            b"abcd",
            with_timeout,
            &[Ok((3, b'a')), Err(TIMEOUT)],
            b"d",
            timed_out_reads(1),
        ),
        (
            b"abcd",
            with_timeout,
            &[Ok((3, b'a')), Err(TIMEOUT), Ok((1, b'd'))],
            b"",
            timed_out_reads(1),
        ),
        (
            b"abcd",
            with_break,
            &[Ok((3, b'a')), Err(BROKEN)],
            b"d",
            broken_reads(1),
        ),
        (
            b"abcd",
            with_break,
            &[Ok((3, b'a')), Err(BROKEN), Ok((1, b'd'))],
            b"",
            broken_reads(1),
        ),
        (
            b"abcdefgh",
            with_one_read,
            &[Ok((4, b'a')), Err(BROKEN)],
            b"efgh",
            broken_reads(1),
        ),
    ];
    for (input, script, expected, unread, counts) in &cases {
        assert!(rt;
            is_read(rt.alloc(), input, *script, expected, unread, *counts),
            "{input:?}, {script:?}"
        );
    }
}

// Whether a write of `hello` answers so, leaves these bytes, and counts a timeout where it fails.
fn is_written(
    alloc: Global,
    script: Script,
    expected: Result<(), WireFault>,
    written: &[u8],
) -> bool {
    let mut wire = ScriptedWire::new(alloc, b"", script);
    let answer = write_all(&mut wire, b"hello");
    let failed = if answer.is_err() { 1 } else { 0 };
    answer == expected && wire.written() == written && wire.faults().writes_timed_out == failed
}

// The most bytes of a write, the write that times out, and what is left of `hello`. Of all writes one has failed or none.
#[test]
fn a_failing_write_leaves_a_beginning(rt: HostRuntime) {
    let cases = [
        (0, None, Ok(()), b"hello".as_slice()),
        (2, Some((0, TIMEOUT)), Err(TIMEOUT), b""),
        (2, Some((1, TIMEOUT)), Err(TIMEOUT), b"he"),
        (2, Some((2, TIMEOUT)), Err(TIMEOUT), b"hell"),
        (2, Some((3, TIMEOUT)), Ok(()), b"hello"),
    ];
    for (most_written, failing_write, expected, written) in &cases {
        let script = Script {
            most_written: *most_written,
            failing_write: *failing_write,
            ..Script::SMOOTH
        };
        assert!(rt;
            is_written(rt.alloc(), script, *expected, written),
            "{failing_write:?}"
        );
    }
}

// A stream whose calls all answer the same.
#[derive(Drop)]
struct Stream {
    kind: Option<ErrorKind>,
    count: usize,
}

impl Stream {
    fn answer(&self, room: usize) -> io::Result<usize>
        ensures { IfOk result (λ count. count ≤ room) }
    {
        match self.kind {
            Some(kind) => Err(kind.into()),
            None => Ok(self.count.min(room)),
        }
    }
}

impl Read for Stream {
    fn read(&mut self, buffer: &mut [u8]) -> io::Result<usize> {
        self.answer(buffer.len())
    }
}

impl Write for Stream {
    fn write(&mut self, bytes: &[u8]) -> io::Result<usize> {
        self.answer(bytes.len())
    }

    fn flush(&mut self) -> io::Result<()> {
        Ok(())
    }
}

// What a write of these bytes, a write of all of them and a read answer. The read stands between the writes.
fn answers(
    stream: Stream,
    bytes: &[u8],
) -> (Result<usize, WireFault>, Result<(), WireFault>, Given) {
    let mut wire = SocketWire::new(stream);
    let written = wire.write(bytes);
    let given = read_some(&mut wire);
    let all_written = write_all(&mut wire, bytes);
    (written, all_written, given)
}

// How each call of a stream fails, or how many bytes it takes; and what a write of these bytes, a write of all of them and a read
// answer. A read of a socket over its limit is reported as `WouldBlock`, and on some systems as `TimedOut`; a stream that takes no
// byte is broken.
#[test]
fn the_answers_of_a_stream_are_told_apart(rt: HostRuntime) {
    let cases = [
        (
            Some(ErrorKind::WouldBlock),
            0,
            b"a".as_slice(),
            Err(TIMEOUT),
            Err(TIMEOUT),
            Err(TIMEOUT),
        ),
        (
            Some(ErrorKind::TimedOut),
            0,
            b"a",
            Err(TIMEOUT),
            Err(TIMEOUT),
            Err(TIMEOUT),
        ),
        (
            Some(ErrorKind::ConnectionReset),
            0,
            b"a",
            Err(BROKEN),
            Err(BROKEN),
            Err(BROKEN),
        ),
        (
            Some(ErrorKind::BrokenPipe),
            0,
            b"a",
            Err(BROKEN),
            Err(BROKEN),
            Err(BROKEN),
        ),
        (
            Some(ErrorKind::Interrupted),
            0,
            b"a",
            Err(BROKEN),
            Err(BROKEN),
            Err(BROKEN),
        ),
        (None, 0, b"a", Err(BROKEN), Err(BROKEN), Ok((0, 0))),
        (None, 0, b"", Ok(0), Ok(()), Ok((0, 0))),
        (None, 2, b"abc", Ok(2), Ok(()), Ok((2, 0))),
    ];
    for (kind, count, bytes, written, all_written, given) in &cases {
        let stream = Stream {
            kind: *kind,
            count: *count,
        };
        assert_eq!(rt;
            answers(stream, bytes),
            (*written, *all_written, *given),
            "{count} bytes of {bytes:?}, {written:?}"
        );
    }
}

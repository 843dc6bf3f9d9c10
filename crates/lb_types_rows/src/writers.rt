use lb_types_counted::Counted;
use std::alloc::Global;
use std::io;
use std::io::{BufWriter, ErrorKind, Write};

/// What a scripted writer does with a write.
#[derive(Clone, Copy)]
enum Step {
    /// It takes at most so many bytes.
    Take(usize),
    /// It fails.
    Fail(ErrorKind),
}

/// A writer that goes by a script, and keeps what it takes.
#[derive(Drop)]
struct Scripted<'a> {
    script: &'a [Step],
    taken: Vec<u8>,
}

impl<'a> Scripted<'a> {
    fn new(alloc: Global, script: &'a [Step]) -> Self {
        Scripted {
            script,
            taken: Vec::new(alloc),
        }
    }
}

impl Write for Scripted<'_> {
    fn write(&mut self, buf: &[u8]) -> io::Result<usize> {
        let Some((step, rest)) = self.script.split_first() else {
            self.taken.extend_from_slice(buf)?;
            return Ok(buf.len());
        };
        self.script = rest;
        match step {
            Step::Fail(kind) => Err(io::Error::from(*kind)),
            Step::Take(most) => {
                let count = buf.len().min(*most);
                self.taken.extend_from_slice(&buf[..count])?;
                Ok(count)
            }
        }
    }

    fn flush(&mut self) -> io::Result<()> {
        Err(io::Error::from(ErrorKind::StorageFull))
    }
}

/// Writes four bytes by this script: why it failed, how many failures were counted, and what went out.
fn outcome(alloc: Global, script: &[Step]) -> (Option<ErrorKind>, u64, Vec<u8>) {
    let mut out = Counted::new(Scripted::new(alloc, script));
    let kind = out.write_all(b"abcd").err().map(|error| error.kind());
    let failures = out.failures();
    (kind, failures, out.into_inner().taken)
}

const INTERRUPTED: Step = Step::Fail(ErrorKind::Interrupted);

/// Scripts, and the outcome that each is to have.
const SCRIPTS: &[(&[Step], Option<ErrorKind>, u64, &str)] = &[
    (&[], None, 0, "abcd"),
    (&[Step::Take(1), Step::Take(2)], None, 0, "abcd"),
    (
        &[INTERRUPTED, Step::Take(3), INTERRUPTED, INTERRUPTED],
        None,
        3,
        "abcd",
    ),
    (&[Step::Take(0)], Some(ErrorKind::WriteZero), 1, ""),
    (
        &[Step::Take(3), Step::Take(0)],
        Some(ErrorKind::WriteZero),
        1,
        "abc",
    ),
    (
        &[Step::Fail(ErrorKind::StorageFull)],
        Some(ErrorKind::StorageFull),
        1,
        "",
    ),
    (
        &[
            INTERRUPTED,
            Step::Take(1),
            Step::Fail(ErrorKind::BrokenPipe),
        ],
        Some(ErrorKind::BrokenPipe),
        2,
        "a",
    ),
];

#[test]
fn failures_are_counted_and_interruptions_tried_again(rt: HostRuntime) {
    for (script, kind, failures, taken) in SCRIPTS {
        let (found, counted, went) = outcome(rt.alloc(), *script);
        let told = (found, counted, went.as_slice());
        assert_eq!(rt; told, (*kind, *failures, taken.as_bytes()));
    }
}

// A flush that fails is passed on and a write of no bytes takes none, and neither is counted.
#[test]
fn flushes_and_writes_of_nothing(rt: HostRuntime) {
    let script = [Step::Take(0), Step::Take(0)];
    let mut out = Counted::new(Scripted::new(rt.alloc(), &script));
    let flushed = out.flush().err().map(|error| error.kind());
    let nothing = (out.write(b"").ok(), out.failures());
    let one = (out.write(b"x").ok(), out.failures());
    assert_eq!(rt; flushed, Some(ErrorKind::StorageFull));
    assert_eq!(rt; [nothing, one], [(Some(0), 0), (Some(0), 1)]);
}

/// Adds what a vector gets through a buffer of two bytes, and gives how many failures were counted.
fn written_through_a_buffer(alloc: Global, bytes: &mut Vec<u8>) -> io::Result<u64> {
    let mut out = Counted::new(BufWriter::with_capacity(alloc, 2, bytes)?);
    write_and_flush(&mut out)?;
    Ok(out.failures())
}

fn write_and_flush(out: &mut impl Write) -> io::Result<()> {
    out.write_all(b"abcde")?;
    out.flush()
}

#[test]
fn a_vector_and_a_buffered_writer_take_all(rt: HostRuntime) {
    let mut plain = Counted::new(Vec::new(rt.alloc()));
    plain.write_all(b"abc").expect(&rt, "memory");
    let mut bytes = Vec::new(rt.alloc());
    let failures = written_through_a_buffer(rt.alloc(), &mut bytes).expect(&rt, "memory");
    let plain = plain.into_inner();
    let found = (plain.as_slice(), failures, bytes.as_slice());
    assert_eq!(rt; found, (b"abc".as_slice(), 0, b"abcde".as_slice()));
}

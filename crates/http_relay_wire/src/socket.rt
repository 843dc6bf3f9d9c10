ghost use Rattle.std.specs.Prelude.{◌≡◌, ◌≤◌, ◌^◌, None, false, IfOk, length};
ghost use Rattle.http_relay_wire.specs.Faults.{no_faults};

use crate::fault::{FaultCounts, WireFault};
use crate::wire::Wire;
use std::io;
use std::io::{ErrorKind, Read, Write};
use std::os::fd::{AsRawFd, RawFd};

/// How many reads a socket's wire allows.
const MOST_READS: u64 = 1 << 62;

/// How often a call that a signal cut off is made again.
const MOST_TRIES: u32 = 64;

/// A wire over a stream of std, such as a `TcpStream` with its time limits set. Nobody knows what its peer will send, so
/// it states no bytes. The stream should send at once what it is given: a wire has no flush.
#[derive(Debug, Drop)]
pub struct SocketWire<S> {
    stream: S,
    has_ended: bool,
    reads_left: u64,
    faults: FaultCounts,
}

impl<S: Read + Write> SocketWire<S> {
    /// A wire over the stream, of which nothing was read or written yet. 2^62 reads may be made. It hasn't failed yet.
    pub fn new(stream: S) -> Self
        ensures reading { ⟦<SocketWire<S> as Wire>⟧.reading result
            ≡ record { unread = None; left = 2 ^ 62; ended = false } }
        ensures faults { ⟦<SocketWire<S> as Wire>⟧.faults result ≡ no_faults }
    {
        SocketWire {
            stream,
            has_ended: false,
            reads_left: MOST_READS,
            faults: FaultCounts::default(),
        }
    }
}

impl<S> SocketWire<S> {
    /// The stream. What the wire knows of it ends here.
    pub fn into_stream(self) -> S {
        let SocketWire { stream, .. } = self;
        stream
    }
}

impl<S: AsRawFd> AsRawFd for SocketWire<S> {
    fn as_raw_fd(&self) -> RawFd {
        self.stream.as_raw_fd()
    }
}

// std reports a limit that ran out in one of two ways.
fn fault_of(error: &io::Error) -> WireFault {
    match error.kind() {
        ErrorKind::WouldBlock | ErrorKind::TimedOut => WireFault::Timeout,
        _ => WireFault::Broken,
    }
}

fn read_stream<S: Read>(stream: &mut S, buffer: &mut [u8]) -> Result<usize, WireFault>
    ensures { IfOk result (λ count. count ≤ length buffer.new) }
{
    for _ in 0..MOST_TRIES {
        match stream.read(buffer) {
            Ok(count) => return Ok(count),
            Err(error) if error.kind() == ErrorKind::Interrupted => {}
            Err(error) => return Err(fault_of(&error)),
        }
    }
    Err(WireFault::Broken)
}

fn write_stream<S: Write>(stream: &mut S, bytes: &[u8]) -> Result<usize, WireFault>
    ensures { IfOk result (λ count. count ≤ length bytes.now) }
{
    for _ in 0..MOST_TRIES {
        match stream.write(bytes) {
            Ok(count) => return Ok(count),
            Err(error) if error.kind() == ErrorKind::Interrupted => {}
            Err(error) => return Err(fault_of(&error)),
        }
    }
    Err(WireFault::Broken)
}

impl<S: Read + Write> Wire for SocketWire<S> {
    ghost use Rattle.http_relay_wire.specs.Wires.{Reading};

    ghost reading = { λ wire. record { unread = None; left = wire.reads_left; ended = wire.has_ended } };

    ghost written = { λ wire. None };

    ghost faults = { λ wire. wire.faults };

    fn read(&mut self, buffer: &mut [u8]) -> Result<usize, WireFault> {
        if self.reads_left == 0 {
            self.faults.count_read(WireFault::Broken);
            return Err(WireFault::Broken);
        }
        self.reads_left -= 1;
        match read_stream(&mut self.stream, buffer) {
            Ok(count) => {
                self.has_ended = self.has_ended || (count == 0 && !buffer.is_empty());
                Ok(count)
            }
            Err(fault) => {
                self.faults.count_read(fault);
                Err(fault)
            }
        }
    }

    fn write(&mut self, bytes: &[u8]) -> Result<usize, WireFault> {
        let answer = match write_stream(&mut self.stream, bytes) {
            Ok(0) if !bytes.is_empty() => Err(WireFault::Broken),
            answer => answer,
        };
        if let Err(fault) = answer {
            self.faults.count_write(fault);
        }
        answer
    }
}

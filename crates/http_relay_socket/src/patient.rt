use crate::Patience;
use http_relay_wire::WireFault;
use std::io;
use std::io::{ErrorKind, Read, Write};
use std::net::OpenStream;
use std::time::Duration;

/// How often a call may begin to wait again.
const MOST_WAITS: u64 = 1 << 62;

/// A stream whose reads and writes wait as long as a patience lets them. It sets the stream's limits where they change, which costs a
/// system call each.
#[derive(Debug, Drop)]
pub struct PatientStream<S, P> {
    stream: S,
    patience: P,
    // The limits that were set last.
    read_limit: Option<Duration>,
    write_limit: Option<Duration>,
}

impl<S, P> PatientStream<S, P> {
    /// The stream under this patience.
    pub fn new(stream: S, patience: P) -> Self {
        PatientStream {
            stream,
            patience,
            read_limit: None,
            write_limit: None,
        }
    }

    /// The stream, with the limits that were set last.
    pub fn into_stream(self) -> S
    where
        S: Drop,
        P: Drop,
    {
        self.stream
    }
}

impl<S: OpenStream, P: Patience> PatientStream<S, P> {
    // Lets the next read wait as long as it may.
    fn limit_read(&mut self) -> io::Result<()> {
        let wait = Some(self.patience.next_wait().map_err(error_of)?);
        if self.read_limit != wait {
            self.stream.set_read_timeout(wait)?;
            self.read_limit = wait;
        }
        Ok(())
    }

    // Lets the next write wait as long as it may.
    fn limit_write(&mut self) -> io::Result<()> {
        let wait = Some(self.patience.next_wait().map_err(error_of)?);
        if self.write_limit != wait {
            self.stream.set_write_timeout(wait)?;
            self.write_limit = wait;
        }
        Ok(())
    }
}

// The error that a wire reports as this fault.
fn error_of(fault: WireFault) -> io::Error {
    io::Error::from(match fault {
        WireFault::Timeout => ErrorKind::TimedOut,
        WireFault::Broken => ErrorKind::ConnectionAborted,
    })
}

// Whether the call ended because it had waited as long as its limit.
fn has_waited<T>(answer: &io::Result<T>) -> bool {
    match answer {
        Err(error) => matches!(error.kind(), ErrorKind::WouldBlock | ErrorKind::TimedOut),
        Ok(_) => false,
    }
}

impl<S: Read + OpenStream, P: Patience> Read for PatientStream<S, P> {
    fn read(&mut self, buffer: &mut [u8]) -> io::Result<usize> {
        for _ in 0..MOST_WAITS {
            self.limit_read()?;
            let answer = self.stream.read(buffer);
            if !has_waited(&answer) {
                return answer;
            }
        }
        Err(error_of(WireFault::Timeout))
    }
}

impl<S: Write + OpenStream, P: Patience> Write for PatientStream<S, P> {
    fn write(&mut self, bytes: &[u8]) -> io::Result<usize> {
        for _ in 0..MOST_WAITS {
            self.limit_write()?;
            let answer = self.stream.write(bytes);
            if !has_waited(&answer) {
                return answer;
            }
        }
        Err(error_of(WireFault::Timeout))
    }

    fn flush(&mut self) -> io::Result<()> {
        self.stream.flush()
    }
}

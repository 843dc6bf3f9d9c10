ghost use Rattle.std.specs.Prelude.{◌≡◌, ◌≤◌, length, IfOk};

use crate::Attended;
use crate::attended::{has_left, nobody};
use http_relay_dial::Limits;
use libc::net::{_SS_SIZE, POLLERR, POLLHUP, POLLIN, POLLOUT, POLLRDHUP, connect, poll};
use libc::types::pollfd;
use mio::net as ready;
use std::io;
use std::io::{ErrorKind, Read, Write};
use std::net::{Net, SocketAddr, TcpStream};
use std::os::fd::AsRawFd;

/// How often a wait that a signal cut off begins again, and a call after a report that it needn't wait.
const MOST_TRIES: u32 = 64;

/// For how many milliseconds a server is waited for before its client is watched too.
const ALONE_MILLIS: i32 = 5;

/// An address of no family (`AF_UNSPEC`), and how many of its bytes the system reads.
const NOWHERE: [u8; _SS_SIZE] = [0; _SS_SIZE];

const NOWHERE_LENGTH: u32 = 16;

/// What is known of the end of what a server sends.
#[derive(Clone, Copy, Debug, PartialEq, Eq)]
enum End {
    Unknown,
    /// The system has it, after what wasn't read.
    Came,
    /// All that came before it was read.
    Reached,
}

/// A connection to a server. Its socket doesn't block: calls wait by `poll`, which takes the limit as an argument, so that none has
/// to be set.
///
/// A connection costs three system calls, and two where the server is on this machine and first bytes are sent with the dial. An
/// answer costs one besides its reads, and the end two. Where the server's end came with its answer, `poll` reports both, and no read
/// has to find the end.
///
/// A wait also ends if the client leaves for whose request the connection is. The call then fails. In its first 5 ms a wait is for the
/// server alone, since most servers answer within them, and `poll` then watches one socket. From then on it watches both,
/// and reports a client that left before.
///
/// The connection ends by a reset (RFC 9293, 3.10.5, ABORT), as HAProxy's connections to servers do. Nothing is owed to a server
/// whose answer is there or isn't waited for, and an orderly end costs both sides more.
pub struct ServerStream<'a> {
    stream: TcpStream,
    /// For how many milliseconds each call may wait. Without a number, and at 0, there is no limit.
    limit: Option<u32>,
    /// The client for whose request it is.
    client: Option<&'a Attended>,
    has_written: bool,
    sends_at_once: bool,
    /// Whether the server has to answer before there is something to read.
    is_asked: bool,
    end: End,
}

impl<'a> ServerStream<'a> {
    /// A connection to the server at this address under these limits, and how many of the first bytes it has taken. Where the server
    /// is on this machine that is as many as a write takes, and none if the connection has broken by then. It is for this client's
    /// request. The error is the system's, `TimedOut`, or `ConnectionAborted` where the client left.
    pub fn connect<R: Net>(
        rt: &R,
        address: SocketAddr,
        limits: Limits,
        client: Option<&'a Attended>,
        first: &[u8],
    ) -> io::Result<(Self, usize)>
        ensures { IfOk result (λ connected. connected.1 ≤ length first.now) }
    {
        let mut stream = TcpStream::from(ready::TcpStream::connect(rt, address)?);
        let at_once = if address.ip().is_loopback() {
            first
        } else {
            &[]
        };
        let taken = begin(&mut stream, limits.connect, client, at_once)?;
        let connection = ServerStream {
            stream,
            limit: limits.transfer,
            client,
            has_written: taken > 0,
            sends_at_once: false,
            is_asked: taken > 0,
            end: End::Unknown,
        };
        Ok((connection, taken))
    }

    /// Has each further write send at once what it is given. A first one does so anyway: nothing that it would be kept for is under
    /// way.
    fn send_at_once(&mut self) -> io::Result<()> {
        if self.has_written && !self.sends_at_once {
            self.stream.set_nodelay(true)?;
            self.sends_at_once = true;
        }
        self.has_written = true;
        Ok(())
    }

    /// Waits until there is something to read, be it the end.
    fn wait_to_read(&mut self) -> io::Result<()> {
        let reported = wait_for(&self.stream, POLLIN | POLLRDHUP, self.limit, self.client)?;
        if reported == POLLIN | POLLRDHUP {
            self.end = End::Came;
        }
        Ok(())
    }

    /// Notes what a read into so much room says of the end. One that leaves room has read all that the system had, since HTTP has no
    /// urgent data (RFC 6093), which alone would end a read before that.
    fn note_read(&mut self, answer: &io::Result<usize>, room: usize) {
        match answer {
            Ok(count) if self.end == End::Came && *count < room => self.end = End::Reached,
            _ => {}
        }
    }
}

impl<'a> Drop for ServerStream<'a> {
    fn drop(self) {
        // To connect a socket to nowhere dissolves its connection at once. If the system won't, closing it ends it in turn.
        unsafe { connect(self.stream.as_raw_fd(), &NOWHERE, NOWHERE_LENGTH) };
        let ServerStream {
            stream,
            limit: _,
            client: _,
            has_written: _,
            sends_at_once: _,
            is_asked: _,
            end: _,
        } = self;
        drop(stream);
    }
}

impl<'a> Read for ServerStream<'a> {
    fn read(&mut self, buffer: &mut [u8]) -> io::Result<usize> {
        if self.end == End::Reached {
            return Ok(0);
        }
        if self.is_asked {
            self.wait_to_read()?;
            self.is_asked = false;
        }
        for _ in 0..MOST_TRIES {
            let answer = self.stream.read(buffer);
            if !had_to_wait(&answer) {
                self.note_read(&answer, buffer.len());
                return answer;
            }
            self.wait_to_read()?;
        }
        Err(ErrorKind::Other.into())
    }
}

impl<'a> Write for ServerStream<'a> {
    fn write(&mut self, bytes: &[u8]) -> io::Result<usize> {
        self.send_at_once()?;
        self.is_asked = true;
        for _ in 0..MOST_TRIES {
            let answer = self.stream.write(bytes);
            if !had_to_wait(&answer) {
                return answer;
            }
            wait_for(&self.stream, POLLOUT, self.limit, self.client)?;
        }
        Err(ErrorKind::Other.into())
    }

    fn flush(&mut self) -> io::Result<()> {
        Ok(())
    }
}

// Writes a beginning of these bytes to a socket that is being connected, and answers how many it took. The write assumes that the
// dial has ended, which spares a call that waits for that. On one machine the end comes before the system reports that the dial is
// under way. Where it hasn't come, nothing is taken, and it is waited for. A connection that was made and broke before it took a byte
// has taken none, and its next write fails. The error is that of one that wasn't made.
fn begin(
    stream: &mut TcpStream,
    limit: Option<u32>,
    client: Option<&Attended>,
    at_once: &[u8],
) -> io::Result<usize>
    ensures { IfOk result (λ count. count ≤ length at_once.now) }
{
    if !at_once.is_empty() {
        let answer = stream.write(at_once);
        if !had_to_wait(&answer) {
            return answer.or_else(unless_made);
        }
    }
    if has_failed(wait_for(stream, POLLOUT, limit, client)?) {
        let error = stream.take_error()?;
        return unless_made(error.unwrap_or(ErrorKind::NotConnected.into()));
    }
    Ok(0)
}

// None taken, where the error is that of a connection that was made and broke: the system reports a dial that a server refused by
// another one.
fn unless_made(error: io::Error) -> io::Result<usize>
    ensures { IfOk result (λ count. count ≡ 0) }
{
    match error.kind() {
        ErrorKind::ConnectionReset | ErrorKind::BrokenPipe => Ok(0),
        _ => Err(error),
    }
}

// Whether the call ended because it would have had to wait.
fn had_to_wait<T>(answer: &io::Result<T>) -> bool {
    match answer {
        Err(error) => error.kind() == ErrorKind::WouldBlock,
        Ok(_) => false,
    }
}

// Whether the report says that the connection has failed.
fn has_failed(reported: i16) -> bool {
    reported & (POLLERR | POLLHUP) != 0
}

// Waits until the system reports one of these events of the socket, or that it has failed, and gives the report. The error is
// `TimedOut` where the limit ran out before, and `ConnectionAborted` where the client left.
fn wait_for(
    stream: &TcpStream,
    events: i16,
    limit: Option<u32>,
    client: Option<&Attended>,
) -> io::Result<i16> {
    let server = pollfd {
        fd: stream.as_raw_fd(),
        events,
        revents: 0,
    };
    match client {
        Some(client) => {
            client.note_wait(true);
            let reported = server_report(server, client, timeout_of(limit));
            client.note_wait(false);
            reported
        }
        None => first_report([server, nobody()], timeout_of(limit)),
    }
}

// Waits for a report of the server's socket, and after a while for one of the client's too.
fn server_report(server: pollfd, client: &Attended, timeout: i32) -> io::Result<i16> {
    let is_long = timeout < 0 || timeout > ALONE_MILLIS;
    if !is_long {
        return first_report([server, client.watched()], timeout);
    }
    let mut alone = [server];
    if poll(&mut alone, ALONE_MILLIS) > 0 {
        return Ok(alone[0].revents);
    }
    let left = if timeout < 0 {
        timeout
    } else {
        timeout - ALONE_MILLIS
    };
    first_report([server, client.watched()], left)
}

// Waits for a report of a server's socket or of a client's.
fn first_report(sockets: [pollfd; 2], timeout: i32) -> io::Result<i16> {
    let mut asked = sockets;
    for _ in 0..MOST_TRIES {
        let reported = poll(&mut asked, timeout);
        if reported > 0 && has_left(asked[1].revents) {
            return Err(ErrorKind::ConnectionAborted.into());
        }
        if reported > 0 {
            return Ok(asked[0].revents);
        }
        if reported == 0 {
            return Err(ErrorKind::TimedOut.into());
        }
    }
    Err(ErrorKind::Other.into())
}

// The limit as `poll` takes it, to which a negative one is none.
fn timeout_of(limit: Option<u32>) -> i32 {
    match limit {
        Some(millis) if millis > 0 => i32::try_from(millis).unwrap_or(i32::MAX),
        _ => -1,
    }
}

use http_relay_listen::OtherFiles;
use http_relay_lobby::{Arrival, Lane, Rules, WaitingLine, gather_until_stopped, waiting_line};
use http_relay_socket::StreamLimits;
use std::alloc::{AllocError, Global};
use std::io;
use std::io::{Read, Write};
use std::net::{Ipv4Addr, Net, OpenListener, OpenStream, SocketAddr, SocketAddrV4, TcpStream};
use std::os::fd::AsRawFd;
use std::sync::Wait;
use std::sync::atomic::AtomicBool;
use std::test::Fail;
use std::time::{Clock, Duration};

/// Limits that no test reaches.
pub(crate) const LONG: StreamLimits = StreamLimits {
    read: Some(60_000),
    write: Some(60_000),
};

/// No limits.
pub(crate) const NONE: StreamLimits = StreamLimits {
    read: None,
    write: None,
};

/// A lobby of the first frontend, whose clients may be silent for as long as a read may wait, for so many guests.
pub(crate) fn rules(limits: StreamLimits, most_guests: usize) -> Rules {
    Rules {
        frontend: 0,
        silence: limits.read,
        most_guests,
        files: NO_OTHERS,
    }
}

/// No files beside those of clients.
pub(crate) const NO_OTHERS: OtherFiles = OtherFiles {
    own: 0,
    dials: 0,
    others: 0,
};

/// The line of one listener: its lane, and the end for workers.
pub(crate) fn line<S: Drop>(rt: &HostRuntime) -> Result<(Lane<S>, WaitingLine<S>), Fail> {
    let (mut lanes, line) = waiting_line(rt.alloc(), 1)?;
    let lane = lanes.pop().ok_or(AllocError)?;
    Ok((lane, line))
}

/// Gathers clients until it is stopped. None is cut off.
pub(crate) fn gather<R, L>(
    rt: &R,
    alloc: Global,
    listener: L,
    rules: Rules,
    stop: &AtomicBool,
    to: Lane<L::Stream>,
) -> io::Result<()>
where
    R: Net + Wait + Clock,
    L: OpenListener + AsRawFd + Drop,
    L::Stream: Read + Write + OpenStream + AsRawFd,
{
    let cut = AtomicBool::new(false);
    gather_until_stopped(rt, alloc, listener, rules, stop, &cut, to)
}

/// The next connection in the line, if one comes within 5 s.
pub(crate) fn next<R: Wait + Clock, S: Drop>(rt: &R, from: &WaitingLine<S>) -> Option<Arrival<S>> {
    from.words().recv_timeout(rt, patience()).ok()?;
    from.take(rt)
}

/// A port of this host that the system picks.
pub(crate) fn any_port() -> SocketAddrV4 {
    SocketAddrV4::new(Ipv4Addr::LOCALHOST, 0)
}

/// How long a test waits for what it expects.
pub(crate) fn patience() -> Duration {
    Duration::from_millis(5000)
}

/// Connects so often, sends these bytes each time, and gives the streams.
pub(crate) fn connect_all(
    rt: &HostRuntime,
    address: SocketAddr,
    count: usize,
    bytes: &[u8],
) -> Result<Vec<TcpStream>, Fail> {
    let mut all = Vec::new(rt.alloc());
    for _ in 0..count {
        let mut stream = TcpStream::connect_timeout(rt, &address, patience())?;
        stream.write_all(bytes)?;
        all.push(stream)?;
    }
    Ok(all)
}

/// How many arrivals come, up to so many.
pub(crate) fn take_all<R: Wait + Clock, S: Drop>(
    rt: &R,
    from: &WaitingLine<S>,
    most: usize,
) -> usize {
    let mut count: usize = 0;
    for _ in 0..most {
        if next(rt, from).is_none() {
            break;
        }
        count = count.saturating_add(1);
    }
    count
}

//! How long operators may take.

use command_socket_listen::{CommandListener, LineStream};
use lb_config_arguments::Endpoint;
use lb_config_keywords::SocketAddress;
use std::cell::Cell;
use std::io;
use std::io::{ErrorKind, Read, Write};
use std::net::{Ipv4Addr, Net, SocketAddr, TcpListener, TcpStream};
use std::sync::Wait;
use std::sync::atomic::{AtomicBool, Ordering};
use std::test::Fail;
use std::time::{Clock, Duration};

/// Time that passes where a test says so.
#[derive(Drop)]
struct Time {
    millis: Cell<u64>,
}

impl Clock for Time {
    fn monotonic(&self) -> io::Result<Duration> {
        Ok(Duration::from_millis(self.millis.get()))
    }

    fn since_1970(&self) -> io::Result<Duration> {
        self.monotonic()
    }
}

// A listener for operators, and where it listens.
fn listening(rt: &HostRuntime) -> Result<(CommandListener, SocketAddr), Fail> {
    let address = TcpListener::bind(rt, "127.0.0.1:0")?.local_addr()?;
    let endpoint = Endpoint {
        address: Ipv4Addr::LOCALHOST,
        port: address.port(),
    };
    let listener = CommandListener::open(rt, rt.alloc(), &SocketAddress::Tcp(endpoint))?;
    Ok((listener, address))
}

/// A call of one byte.
#[derive(Clone, Copy, Debug)]
enum Call {
    Read,
    Write,
}

/// When it is over, if that comes; and calls, each with its moment in milliseconds, and whether it fails as timed out.
const LIMITS: &[(Option<u64>, &[(Call, u64, bool)])] = &[
    // A line has 5 s from the beginning on, however many reads that takes.
    (
        None,
        &[
            (Call::Read, 0, false),
            (Call::Read, 4999, false),
            (Call::Read, 5000, true),
        ],
    ),
    // An answer has 60 s from its first write on, whenever that comes.
    (
        None,
        &[
            (Call::Write, 4000, false),
            (Call::Write, 63_999, false),
            (Call::Write, 64_000, true),
        ],
    ),
    // It has 5 s from the first write on that finds that it is over, and no more than its 60 s.
    (
        Some(10_000),
        &[
            (Call::Write, 0, false),
            (Call::Write, 20_000, false),
            (Call::Write, 24_999, false),
            (Call::Write, 25_000, true),
        ],
    ),
    (
        Some(10_000),
        &[
            (Call::Write, 0, false),
            (Call::Write, 59_999, false),
            (Call::Write, 60_000, true),
        ],
    ),
];

// Whether the call did what is expected: it moves one byte, or fails as timed out.
fn is_as_expected(moved: io::Result<usize>, times_out: bool) -> bool {
    match moved {
        Ok(count) => !times_out && count == 1,
        Err(error) => times_out && error.kind() == ErrorKind::TimedOut,
    }
}

// Which of the calls is the first that doesn't do what is expected, if one is.
fn first_wrong(
    time: &Time,
    is_over: &AtomicBool,
    line: &mut LineStream<'_, Time>,
    over_at: Option<u64>,
    calls: &[(Call, u64, bool)],
) -> Option<usize> {
    for (place, (call, moment, times_out)) in calls.iter().enumerate() {
        time.millis.set(*moment);
        if over_at.is_some_and(|over| over <= *moment) {
            is_over.store(true, Ordering::SeqCst);
        }
        let moved = match call {
            Call::Read => line.read(&mut [0; 1]),
            Call::Write => line.write(b"x"),
        };
        if !is_as_expected(moved, *times_out) {
            return Some(place);
        }
    }
    None
}

// The same over a connection of its own.
fn first_wrong_of<R: Wait + Clock + Net<Stream = TcpStream>>(
    rt: &R,
    listener: &CommandListener,
    address: SocketAddr,
    over_at: Option<u64>,
    calls: &[(Call, u64, bool)],
) -> io::Result<Option<usize>> {
    let mut far = TcpStream::connect(rt, address)?;
    far.write_all(b"show")?;
    let is_over = AtomicBool::new(false);
    let Some(near) = listener.next_connection(rt, &is_over) else {
        return Err(ErrorKind::NotConnected.into());
    };
    let time = Time {
        millis: Cell::new(0),
    };
    let mut line = LineStream::new(&time, &is_over, near);
    Ok(first_wrong(&time, &is_over, &mut line, over_at, calls))
}

// Each limit ends the call that comes after it, and none before.
#[test]
fn operators_have_their_limits(rt: HostRuntime) -> Result<(), Fail> {
    let (listener, address) = listening(&rt)?;
    for (over_at, calls) in LIMITS {
        let wrong = first_wrong_of(&rt, &listener, address, *over_at, calls)?;
        assert!(rt; wrong.is_none(), "{over_at:?}, {wrong:?}");
    }
    Ok(())
}

use crate::site::{NONE, any_port, gather, line, next, rules, take_all};
use http_relay_listen::listen;
use http_relay_lobby::{MAX_WAITING, WaitingLine, waiting_line};
use std::cell::Cell;
use std::io::{Error, ErrorKind, Read, Write};
use std::net::{Ipv4Addr, OpenListener, OpenStream, SocketAddr, SocketAddrV4, TcpListener};
use std::os::fd::{AsRawFd, RawFd};
use std::sync::atomic::{AtomicBool, Ordering};
use std::test::Fail;
use std::thread::join;
use std::time::{Clock, Duration};
use std::{io, thread};

const REQUEST: &[u8] = b"GET / HTTP/1.1\r\nHost: a\r\n\r\n";

/// A connection of a `Script`, whose client has sent a request.
#[derive(Debug, Drop)]
struct Scripted;

impl Read for Scripted {
    fn read(&mut self, buffer: &mut [u8]) -> io::Result<usize> {
        let count = REQUEST.len().min(buffer.len());
        buffer[..count].copy_from_slice(&REQUEST[..count]);
        Ok(count)
    }
}

impl Write for Scripted {
    fn write(&mut self, bytes: &[u8]) -> io::Result<usize> {
        Ok(bytes.len())
    }

    fn flush(&mut self) -> io::Result<()> {
        Ok(())
    }
}

impl AsRawFd for Scripted {
    fn as_raw_fd(&self) -> RawFd {
        -1
    }
}

impl OpenStream for Scripted {}

/// What an accept gives.
#[derive(Clone, Copy, Debug)]
enum Accept {
    Connection,
    Fails(ErrorKind),
    // The system's error of this number.
    FailsAs(i32),
}

/// A listener that gives this in turn, and sets the flag with the last.
#[derive(Drop)]
struct ScriptedListener<'a> {
    // What the system watches in its place.
    inner: TcpListener,
    accepts: &'a [Accept],
    next: Cell<usize>,
    stop: &'a AtomicBool,
}

impl<'a> AsRawFd for ScriptedListener<'a> {
    fn as_raw_fd(&self) -> RawFd {
        self.inner.as_raw_fd()
    }
}

impl<'a> OpenListener for ScriptedListener<'a> {
    type Stream = Scripted;

    fn set_nonblocking(&self, _nonblocking: bool) -> io::Result<()> {
        Ok(())
    }

    fn accept(&self) -> io::Result<(Scripted, SocketAddr)> {
        let place = self.next.get();
        self.next.set(place.saturating_add(1));
        let Some(accept) = self.accepts.get(place) else {
            self.stop.store(true, Ordering::SeqCst);
            return Err(ErrorKind::WouldBlock.into());
        };
        match accept {
            Accept::Connection => Ok(connection()),
            Accept::Fails(kind) => Err((*kind).into()),
            Accept::FailsAs(number) => Err(Error::from_raw_os_error(*number)),
        }
    }
}

fn connection() -> (Scripted, SocketAddr) {
    let address = SocketAddr::V4(SocketAddrV4::new(Ipv4Addr::new(10, 0, 0, 1), 80));
    (Scripted, address)
}

// `EMFILE`: too many open files.
const TOO_MANY_FILES: i32 = 24;

// `EPROTO`: an error of the connection that would have been accepted.
const ODD_CONNECTION: i32 = 71;

// What accepts give, and how many connections are handed on.
const ACCEPTS: &[(&[Accept], usize)] = &[
    (&[], 0),
    (&[Accept::Connection, Accept::Connection], 2),
    (
        &[
            Accept::Fails(ErrorKind::ConnectionAborted),
            Accept::Connection,
        ],
        1,
    ),
    (
        &[
            Accept::FailsAs(TOO_MANY_FILES),
            Accept::FailsAs(TOO_MANY_FILES),
            Accept::Connection,
        ],
        1,
    ),
    (&[Accept::FailsAs(ODD_CONNECTION), Accept::Connection], 1),
    (&[Accept::Fails(ErrorKind::Other), Accept::Connection], 1),
];

// No error of one accept ends the loop.
#[test]
fn errors_end_nothing(rt: HostRuntime) -> Result<(), Fail> {
    for (accepts, handed_on) in ACCEPTS {
        let stop = AtomicBool::new(false);
        let (to, from) = line(&rt)?;
        let listener = ScriptedListener {
            inner: listen(&rt, any_port())?,
            accepts,
            next: Cell::new(0),
            stop: &stop,
        };
        gather(&rt, rt.alloc(), listener, rules(NONE, 8), &stop, to)?;
        let waiting = from.len();
        assert!(rt; waiting == *handed_on, "{accepts:?}, {waiting}");
    }
    Ok(())
}

/// A listener whose backlog is never empty.
#[derive(Drop)]
struct Crowd {
    inner: TcpListener,
}

impl AsRawFd for Crowd {
    fn as_raw_fd(&self) -> RawFd {
        self.inner.as_raw_fd()
    }
}

impl OpenListener for Crowd {
    type Stream = Scripted;

    fn set_nonblocking(&self, _nonblocking: bool) -> io::Result<()> {
        Ok(())
    }

    fn accept(&self) -> io::Result<(Scripted, SocketAddr)> {
        Ok(connection())
    }
}

// Waits until the line is full, for 5 s at most, and then a while longer.
fn wait_until_full<R: Clock>(rt: &R, line: &WaitingLine<Scripted>) {
    for _ in 0..100 {
        if line.len() >= MAX_WAITING {
            break;
        }
        thread::sleep(rt, Duration::from_millis(50));
    }
    thread::sleep(rt, Duration::from_millis(50));
}

// While the line is full only the client is accepted at which that was seen. It holds up no stop, and no client is
// lost.
#[test]
fn a_full_line_holds_nobody_up(rt: HostRuntime) -> Result<(), Fail> {
    let stop = AtomicBool::new(false);
    let (to, from) = line(&rt)?;
    let crowd = Crowd {
        inner: listen(&rt, any_port())?,
    };
    let (gathered, (waiting, taken)) = join(
        &rt,
        || gather(&rt, rt.alloc(), crowd, rules(NONE, 8), &stop, to),
        || {
            wait_until_full(&rt, &from);
            let waiting = from.len();
            stop.store(true, Ordering::SeqCst);
            // The thread sees the stop before there is room again.
            thread::sleep(&rt, Duration::from_millis(300));
            (waiting, take_all(&rt, &from, MAX_WAITING + 64))
        },
    );
    gathered?;
    assert_eq!(rt; (waiting, taken), (MAX_WAITING, MAX_WAITING + 1));
    Ok(())
}

// Where no worker is left nothing more is accepted.
#[test]
fn without_workers_it_ends(rt: HostRuntime) -> Result<(), Fail> {
    let stop = AtomicBool::new(false);
    let (to, from) = line(&rt)?;
    drop(from);
    let crowd = Crowd {
        inner: listen(&rt, any_port())?,
    };
    gather(&rt, rt.alloc(), crowd, rules(NONE, 8), &stop, to)?;
    assert!(rt; !stop.load(Ordering::SeqCst));
    Ok(())
}

// Each of two listeners has half of the line. Connections are taken from both in turn, however many one of them has.
#[test]
fn workers_take_from_listeners_in_turn(rt: HostRuntime) -> Result<(), Fail> {
    let (lanes, from) = waiting_line(rt.alloc(), 2)?;
    let (busy, quiet) = (AtomicBool::new(false), AtomicBool::new(false));
    let accepts = [Accept::Connection; MAX_WAITING];
    for (frontend, (lane, stop)) in lanes.into_iter().zip([&busy, &quiet]).enumerate() {
        let listener = ScriptedListener {
            inner: listen(&rt, any_port())?,
            accepts: if frontend == 0 {
                &accepts[..MAX_WAITING / 2]
            } else {
                &accepts[..3]
            },
            next: Cell::new(0),
            stop,
        };
        let mut rules = rules(NONE, 8);
        rules.frontend = frontend;
        gather(&rt, rt.alloc(), listener, rules, stop, lane)?;
    }
    let mut places = [0; 8];
    for place in &mut places {
        *place = next(&rt, &from).map_or(2, |arrival| arrival.frontend);
    }
    assert!(rt; places == [0, 1, 0, 1, 0, 1, 0, 0], "{places:?}");
    Ok(())
}

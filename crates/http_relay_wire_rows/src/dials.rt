use http_relay_dial::{Dialer, Endpoint, Limits};
use http_relay_system::{ServerWire, SocketDialer, SystemClock};
use http_relay_wire::{SocketWire, Wire, WireFault, write_all};
use lb_desk_ports::Clock;
use std::io::Read;
use std::net::{Ipv4Addr, Shutdown, TcpListener, TcpStream};
use std::test::Fail;
use std::time::{Duration, Instant};

fn endpoint(port: u16) -> Endpoint {
    Endpoint {
        address: Ipv4Addr::new(127, 0, 0, 1),
        port,
    }
}

// The limits to connect and for each read and write, in milliseconds.
const LIMITS: &[(Option<u32>, Option<u32>)] = &[
    (None, Some(100)),
    (Some(0), Some(50)),
    (Some(1000), Some(50)),
];

// A connection that was dialled, and the server's end of it.
fn dialled<'a>(
    rt: &HostRuntime,
    dialer: &mut SocketDialer<'a>,
    limits: Limits,
) -> Result<(ServerWire<'a>, TcpStream), Fail> {
    let listener = TcpListener::bind(rt, "127.0.0.1:0")?;
    let port = listener.local_addr()?.port();
    let (near, _) = dialer.dial(rt, endpoint(port), limits, b"")?;
    let (far, _) = listener.accept()?;
    Ok((near, far))
}

// What a server gets that is dialled with these bytes, of which the connection takes a beginning and a write the rest. Also how many
// bytes that beginning had. The connection ends then.
fn opened_with(rt: &HostRuntime, first: &[u8], got: &mut [u8]) -> Result<(usize, usize), Fail> {
    let limits = Limits {
        connect: Some(1000),
        transfer: Some(1000),
    };
    let mut dialer = SocketDialer::new();
    let listener = TcpListener::bind(rt, "127.0.0.1:0")?;
    let port = listener.local_addr()?.port();
    let (mut near, taken) = dialer.dial(rt, endpoint(port), limits, first)?;
    let (mut far, _) = listener.accept()?;
    write_all(&mut near, &first[taken.min(first.len())..])?;
    far.read_exact(got)?;
    dialer.hang_up(rt, near);
    Ok((taken, first.len()))
}

// A server gets what it was dialled with, once. On one machine the connection takes it at once.
#[test]
fn a_dial_brings_first_bytes(rt: HostRuntime) -> Result<(), Fail> {
    for first in [b"".as_slice(), b"h", b"GET / HTTP/1.1\r\n\r\n"] {
        let mut got = Vec::from_elem(rt.alloc(), 0, first.len())?;
        let (taken, all) = opened_with(&rt, first, &mut got)?;
        assert!(rt; taken == all && got.as_slice() == first, "{taken} of {all}");
    }
    Ok(())
}

// How many bytes come there and back, and how a read ends where none come.
fn talked(
    near: &mut impl Wire,
    far: &mut impl Wire,
    buffer: &mut [u8; 2],
) -> Result<(usize, usize, Result<usize, WireFault>), WireFault> {
    write_all(near, b"hi")?;
    let there = far.read(buffer)?;
    write_all(far, b"yo")?;
    let back = near.read(buffer)?;
    Ok((there, back, near.read(buffer)))
}

// Bytes go both ways over a connection that was dialled, silence ends a read at the limit, and hanging up resets it.
#[test]
fn a_server_that_listens_is_dialled(rt: HostRuntime) -> Result<(), Fail> {
    for (connect, transfer) in LIMITS {
        let limits = Limits {
            connect: *connect,
            transfer: *transfer,
        };
        let mut dialer = SocketDialer::new();
        let (mut near, far) = dialled(&rt, &mut dialer, limits)?;
        let mut far = SocketWire::new(far);
        let mut buffer = [0; 2];
        let talked = talked(&mut near, &mut far, &mut buffer);
        dialer.hang_up(&rt, near);
        let end = far.read(&mut buffer);
        assert!(rt;
            talked == Ok((2, 2, Err(WireFault::Timeout)))
                && end == Err(WireFault::Broken)
                && buffer == *b"yo",
            "{connect:?}: {talked:?}"
        );
    }
    Ok(())
}

// How a write of these bytes ends, and how many milliseconds it took.
fn timed_write(
    rt: &HostRuntime,
    wire: &mut impl Wire,
    bytes: &[u8],
) -> Result<(Result<(), WireFault>, u128), Fail> {
    let begun = Instant::now(rt)?;
    let written = write_all(wire, bytes);
    Ok((written, begun.elapsed(rt)?.as_millis()))
}

// A server that takes nothing more ends a write at the limit.
#[test]
fn a_write_to_a_full_server_has_its_limit(rt: HostRuntime) -> Result<(), Fail> {
    let limits = Limits {
        connect: None,
        transfer: Some(50),
    };
    let bytes = Vec::from_elem(rt.alloc(), 7, 20_000_000)?;
    let mut dialer = SocketDialer::new();
    let (mut near, far) = dialled(&rt, &mut dialer, limits)?;
    let (written, waited) = timed_write(&rt, &mut near, &bytes)?;
    dialer.hang_up(&rt, near);
    assert!(rt;
        written == Err(WireFault::Timeout) && waited >= 49,
        "{waited}"
    );
    drop(far);
    Ok(())
}

// How many bytes a server answers, of which a read takes 8, and whether it ends before the first read.
const ANSWERS: &[(usize, bool)] = &[
    (0, true),
    (3, true),
    (8, true),
    (20, true),
    (3, false),
    (8, false),
    (20, false),
];

// The server is asked, then answers so many bytes and ends, before the first read or after it. Gives how many bytes it was asked
// with, and how many this read gives.
fn answered(
    near: &mut impl Wire,
    far: TcpStream,
    count: usize,
    ends_first: bool,
) -> Result<(usize, usize), WireFault> {
    let mut far = SocketWire::new(far);
    let mut buffer = [0; 8];
    write_all(near, b"hi")?;
    let asked = far.read(&mut buffer)?;
    write_all(&mut far, &[7; 20][..count.min(20)])?;
    let got = if ends_first {
        0
    } else {
        near.read(&mut buffer)?
    };
    Ok((asked, got))
}

// How many bytes more come, and what the last of at most eight reads gives: it is the first that gives none.
fn read_on(wire: &mut impl Wire) -> Result<(usize, Option<usize>), WireFault> {
    let mut buffer = [0; 8];
    let mut got: usize = 0;
    let mut last = None;
    for _ in 0..8 {
        let read = wire.read(&mut buffer)?;
        got = read.saturating_add(got);
        last = Some(read);
        if read == 0 {
            break;
        }
    }
    Ok((got, last))
}

// All that a server answers is read, and then its end, wherever the reads and its end fall.
#[test]
fn an_answer_is_read_to_its_end(rt: HostRuntime) -> Result<(), Fail> {
    let limits = Limits {
        connect: None,
        transfer: Some(5000),
    };
    for (count, ends_first) in ANSWERS {
        let mut dialer = SocketDialer::new();
        let (mut near, far) = dialled(&rt, &mut dialer, limits)?;
        let (asked, first) = answered(&mut near, far, *count, *ends_first)?;
        let (more, last) = read_on(&mut near)?;
        dialer.hang_up(&rt, near);
        let got = first.saturating_add(more);
        assert!(rt;
            (asked, got, last) == (2, *count, Some(0)),
            "{count}, {ends_first}: {got}, {last:?}"
        );
    }
    Ok(())
}

// The server ends, and the connection sees it.
fn end(near: &mut impl Wire, far: &TcpStream) -> Result<(), Fail> {
    far.shutdown(Shutdown::Write)?;
    near.read(&mut [0; 2])?;
    Ok(())
}

// A connection that is given back is closed at once. One whose server has ended is closed where the dialer is asked to close the
// last, so that the end of an answer can go out before.
#[test]
fn a_server_that_has_ended_is_closed_last(rt: HostRuntime) -> Result<(), Fail> {
    let limits = Limits {
        connect: None,
        transfer: Some(5000),
    };
    let cases: &[(bool, Result<usize, WireFault>, Result<usize, WireFault>)] = &[
        (true, Err(WireFault::Timeout), Err(WireFault::Broken)),
        (false, Err(WireFault::Broken), Ok(0)),
    ];
    for (ends, given_back, closed) in cases {
        let mut dialer = SocketDialer::new();
        let (mut near, far) = dialled(&rt, &mut dialer, limits)?;
        far.set_read_timeout(Some(Duration::from_millis(50)))?;
        if *ends {
            end(&mut near, &far)?;
        }
        let mut far = SocketWire::new(far);
        dialer.hang_up(&rt, near);
        let before = far.read(&mut [0; 2]);
        dialer.close_last();
        let after = far.read(&mut [0; 2]);
        assert!(rt;
            before == *given_back && after == *closed,
            "{ends}: {before:?}, {after:?}"
        );
    }
    Ok(())
}

// A server that nobody listens for is broken at once.
#[test]
fn a_server_that_is_gone_is_not_dialled(rt: HostRuntime) -> Result<(), Fail> {
    let gone = TcpListener::bind(&rt, "127.0.0.1:0")?.local_addr()?.port();
    for connect in [None, Some(1000)] {
        let limits = Limits {
            connect,
            transfer: None,
        };
        for first in [b"".as_slice(), b"hi"] {
            let mut dialer = SocketDialer::new();
            let is_broken = match dialer.dial(&rt, endpoint(gone), limits, first) {
                Ok((connection, _)) => {
                    dialer.hang_up(&rt, connection);
                    false
                }
                Err(fault) => fault == WireFault::Broken,
            };
            assert!(rt; is_broken, "{connect:?} {first:?}");
        }
    }
    Ok(())
}

// The clock goes on by a pause at least, and two clocks of one start agree.
#[test]
fn the_clock_goes_on(rt: HostRuntime) -> Result<(), Fail> {
    let start = Instant::now(&rt)?;
    let mut clock = SystemClock::new(start);
    let first = clock.now(&rt).as_millis();
    clock.pause(&rt, 20);
    let second = SystemClock::new(start).now(&rt).as_millis();
    let third = clock.now(&rt).as_millis();
    assert!(rt;
        first.saturating_add(20) <= second && second <= third,
        "{first}, {second}, {third}"
    );
    Ok(())
}

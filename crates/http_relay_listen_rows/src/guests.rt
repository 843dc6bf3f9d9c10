use crate::site::{LONG, NONE, any_port, gather, line, next, patience, rules};
use http_relay_listen::{ClientListener, listen_within};
use http_relay_lobby::WaitingLine;
use http_relay_socket::StreamLimits;
use http_relay_wire::WireFault;
use std::io::{Read, Write};
use std::net::{Net, OpenListener, Shutdown, SocketAddr, TcpStream};
use std::os::fd::{AsRawFd, RawFd};
use std::sync::Wait;
use std::sync::atomic::{AtomicBool, Ordering};
use std::test::Fail;
use std::thread::join;
use std::time::{Clock, Duration, Instant};
use std::{io, thread};

const REQUEST: &[u8] = b"GET / HTTP/1.1\r\nHost: a\r\n\r\n";

// The limit of a client that is silent.
const LIMIT_MILLIS: u32 = 1000;

const SHORT: StreamLimits = StreamLimits {
    read: Some(LIMIT_MILLIS),
    write: Some(LIMIT_MILLIS),
};

// What arrives next: the bytes that were read, whether reading failed, and the stream.
fn is_next<R: Wait + Clock>(
    rt: &R,
    from: &WaitingLine<TcpStream>,
    head: &[u8],
    failed: Option<WireFault>,
) -> bool {
    match next(rt, from) {
        Some(arrival) => arrival.head.as_slice() == head && arrival.failed == failed,
        None => false,
    }
}

// A client that sends its request byte by byte, one that ends within its head, one whose head can't become one, and one that sends
// all at once. The last one comes first.
fn come_in_turn<R: Wait + Clock + Net<Stream = TcpStream>>(
    rt: &R,
    address: SocketAddr,
    from: &WaitingLine<TcpStream>,
) -> io::Result<bool> {
    let mut slow = TcpStream::connect(rt, address)?;
    slow.set_nodelay(true)?;
    slow.write_all(b"G")?;
    let mut short = TcpStream::connect(rt, address)?;
    short.write_all(b"GET / HT")?;
    let mut odd = TcpStream::connect(rt, address)?;
    thread::sleep(rt, Duration::from_millis(50));
    let mut quick = TcpStream::connect(rt, address)?;
    quick.write_all(REQUEST)?;
    let quick_came = is_next(rt, from, REQUEST, None);
    short.shutdown(Shutdown::Write)?;
    let short_came = is_next(rt, from, b"GET / HT", None);
    odd.write_all(b"\x16\x03")?;
    let odd_came = is_next(rt, from, b"\x16\x03", None);
    for byte in &REQUEST[1..] {
        thread::sleep(rt, Duration::from_millis(1));
        slow.write_all(&[*byte])?;
    }
    Ok(quick_came && short_came && odd_came && is_next(rt, from, REQUEST, None))
}

// A head that isn't whole waits for its bytes, and hinders no other.
#[test]
fn a_slow_head_hinders_no_other(rt: HostRuntime) -> Result<(), Fail> {
    let listener = listen_within(&rt, any_port(), LONG)?;
    let address = listener.local_addr()?;
    let (to, from) = line(&rt)?;
    let stop = AtomicBool::new(false);
    let (gathered, came) = join(
        &rt,
        || gather(&rt, rt.alloc(), listener, rules(LONG, 8), &stop, to),
        || {
            let came = come_in_turn(&rt, address, &from);
            stop.store(true, Ordering::SeqCst);
            came
        },
    );
    gathered?;
    assert!(rt; came?);
    Ok(())
}

// The client that sends a byte within its limit goes after the one that is silent. Milliseconds until each went, and whether they were
// reported as timed out with what they had sent.
fn are_dismissed<R: Wait + Clock + Net<Stream = TcpStream>>(
    rt: &R,
    address: SocketAddr,
    from: &WaitingLine<TcpStream>,
) -> io::Result<(u128, u128, bool)> {
    let begun = Instant::now(rt)?;
    let mut lively = TcpStream::connect(rt, address)?;
    lively.write_all(b"G")?;
    let silent = TcpStream::connect(rt, address)?;
    thread::sleep(rt, Duration::from_millis(500));
    lively.write_all(b"E")?;
    let first = is_next(rt, from, b"", Some(WireFault::Timeout));
    let first_millis = begun.elapsed(rt)?.as_millis();
    let second = is_next(rt, from, b"GE", Some(WireFault::Timeout));
    let second_millis = begun.elapsed(rt)?.as_millis();
    drop(silent);
    Ok((first_millis, second_millis, first && second))
}

// Each byte begins the limit anew. The lobby reads its clock in whole milliseconds, so a limit may end up to one of them before its
// time.
#[test]
fn a_silent_client_is_dismissed(rt: HostRuntime) -> Result<(), Fail> {
    let listener = listen_within(&rt, any_port(), SHORT)?;
    let address = listener.local_addr()?;
    let (to, from) = line(&rt)?;
    let stop = AtomicBool::new(false);
    let (gathered, times) = join(
        &rt,
        || gather(&rt, rt.alloc(), listener, rules(SHORT, 8), &stop, to),
        || {
            let times = are_dismissed(&rt, address, &from);
            stop.store(true, Ordering::SeqCst);
            times
        },
    );
    gathered?;
    let (first, second, are_told) = times?;
    assert!(rt;
        are_told && first >= 999 && first < 2000 && second >= 1499 && second < 3000,
        "{first}, {second}"
    );
    Ok(())
}

// Of three clients in a lobby for two the one that was silent for longest goes, and the last is closed at the stop.
fn oldest_goes<R: Wait + Clock + Net<Stream = TcpStream>>(
    rt: &R,
    address: SocketAddr,
    from: &WaitingLine<TcpStream>,
    stop: &AtomicBool,
) -> io::Result<bool> {
    let pause = Duration::from_millis(150);
    let mut first = TcpStream::connect(rt, address)?;
    first.write_all(b"1")?;
    thread::sleep(rt, pause);
    let mut second = TcpStream::connect(rt, address)?;
    second.write_all(b"2")?;
    thread::sleep(rt, pause);
    first.write_all(b"1")?;
    thread::sleep(rt, pause);
    let mut third = TcpStream::connect(rt, address)?;
    third.write_all(b"3")?;
    let second_went = is_next(rt, from, b"2", Some(WireFault::Timeout));
    stop.store(true, Ordering::SeqCst);
    third.set_read_timeout(Some(patience()))?;
    let third_is_closed = matches!(third.read(&mut [0; 8]), Ok(0));
    Ok(second_went && third_is_closed)
}

// Where one client more comes than there is room for, the one that was silent for longest goes. At a stop the others of a frontend
// without a limit are closed without an answer.
#[test]
fn the_oldest_leaves_a_full_lobby(rt: HostRuntime) -> Result<(), Fail> {
    let listener = listen_within(&rt, any_port(), NONE)?;
    let address = listener.local_addr()?;
    let (to, from) = line(&rt)?;
    let stop = AtomicBool::new(false);
    let (gathered, went) = join(
        &rt,
        || gather(&rt, rt.alloc(), listener, rules(NONE, 2), &stop, to),
        || oldest_goes(&rt, address, &from, &stop),
    );
    gathered?;
    assert!(rt; went? && next(&rt, &from).is_none());
    Ok(())
}

// What a stop does to a client within its head, under these limits: whether it is reported as timed out, whether nobody can connect
// before that, and whether it was closed meanwhile.
fn stopped_within<R: Wait + Clock + Net<Stream = TcpStream>>(
    rt: &R,
    address: SocketAddr,
    from: &WaitingLine<TcpStream>,
    stop: &AtomicBool,
) -> io::Result<(bool, bool, bool)> {
    let mut client = TcpStream::connect(rt, address)?;
    client.write_all(b"GET")?;
    thread::sleep(rt, Duration::from_millis(100));
    stop.store(true, Ordering::SeqCst);
    thread::sleep(rt, Duration::from_millis(150));
    let is_refused = TcpStream::connect(rt, address).is_err();
    let is_told = is_next(rt, from, b"GET", Some(WireFault::Timeout));
    client.set_read_timeout(Some(patience()))?;
    let is_closed = matches!(client.read(&mut [0; 8]), Ok(0));
    Ok((is_told, is_refused, is_closed))
}

// At a stop a client within its head keeps its limit, and is reported as timed out; one without a limit is closed at
// once.
#[test]
fn a_stop_leaves_guests_their_limit(rt: HostRuntime) -> Result<(), Fail> {
    for (limits, wanted) in [(SHORT, (true, true, true)), (NONE, (false, true, true))] {
        let listener = listen_within(&rt, any_port(), limits)?;
        let address = listener.local_addr()?;
        let (to, from) = line(&rt)?;
        let stop = AtomicBool::new(false);
        let (gathered, ends) = join(
            &rt,
            || gather(&rt, rt.alloc(), listener, rules(limits, 8), &stop, to),
            || stopped_within(&rt, address, &from, &stop),
        );
        gathered?;
        let ends = ends?;
        assert!(rt; ends == wanted, "{limits:?}, {ends:?}");
    }
    Ok(())
}

/// A listener that sets the flag with each connection that it accepts.
#[derive(Drop)]
struct LastCall<'a> {
    inner: ClientListener,
    stop: &'a AtomicBool,
}

impl<'a> AsRawFd for LastCall<'a> {
    fn as_raw_fd(&self) -> RawFd {
        self.inner.as_raw_fd()
    }
}

impl<'a> OpenListener for LastCall<'a> {
    type Stream = TcpStream;

    fn set_nonblocking(&self, nonblocking: bool) -> io::Result<()> {
        self.inner.set_nonblocking(nonblocking)
    }

    fn accept(&self) -> io::Result<(TcpStream, SocketAddr)> {
        let accepted = self.inner.accept()?;
        self.stop.store(true, Ordering::SeqCst);
        Ok(accepted)
    }
}

// A client that came right before a stop and sends nothing is let go as any other: at its limit, or at once where it has none.
#[test]
fn a_stop_lets_newcomers_go(rt: HostRuntime) -> Result<(), Fail> {
    for (limits, is_told) in [(SHORT, true), (NONE, false)] {
        let inner = listen_within(&rt, any_port(), limits)?;
        let mut client = TcpStream::connect(&rt, inner.local_addr()?)?;
        client.set_read_timeout(Some(patience()))?;
        let (to, from) = line(&rt)?;
        let stop = AtomicBool::new(false);
        let listener = LastCall { inner, stop: &stop };
        gather(&rt, rt.alloc(), listener, rules(limits, 8), &stop, to)?;
        let told = is_next(&rt, &from, b"", Some(WireFault::Timeout));
        let is_closed = matches!(client.read(&mut [0; 8]), Ok(0));
        assert!(rt; told == is_told && is_closed, "{limits:?}");
    }
    Ok(())
}

// What a client gets that sends a byte each 100 ms and whose limit is 1 s: milliseconds from the stop until it was reported as timed
// out, if it was.
fn drips_until_dismissed<R: Wait + Clock + Net<Stream = TcpStream>>(
    rt: &R,
    address: SocketAddr,
    from: &WaitingLine<TcpStream>,
    stop: &AtomicBool,
) -> io::Result<Option<u128>> {
    let mut client = TcpStream::connect(rt, address)?;
    client.set_nodelay(true)?;
    client.write_all(b"GET /")?;
    let mut begun = Instant::now(rt)?;
    for count in 0..60 {
        if count == 5 {
            begun = Instant::now(rt)?;
            stop.store(true, Ordering::SeqCst);
        }
        thread::sleep(rt, Duration::from_millis(100));
        client.write_all(b"x")?;
        if !from.is_empty() {
            break;
        }
    }
    let passed = begun.elapsed(rt)?.as_millis();
    let failed = next(rt, from).and_then(|arrival| arrival.failed);
    Ok((failed == Some(WireFault::Timeout)).then_some(passed))
}

// Before a stop each byte begins the limit anew. From the stop on a client has its limit once, whatever it sends.
#[test]
fn a_stop_waits_for_no_client_that_drips(rt: HostRuntime) -> Result<(), Fail> {
    let listener = listen_within(&rt, any_port(), SHORT)?;
    let address = listener.local_addr()?;
    let (to, from) = line(&rt)?;
    let stop = AtomicBool::new(false);
    let (gathered, passed) = join(
        &rt,
        || gather(&rt, rt.alloc(), listener, rules(SHORT, 8), &stop, to),
        || drips_until_dismissed(&rt, address, &from, &stop),
    );
    gathered?;
    let passed = passed?.unwrap_or(0);
    assert!(rt; passed >= 999 && passed < 4000, "{passed}");
    Ok(())
}

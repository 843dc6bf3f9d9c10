use http_relay_socket::{
    Deadline, Drained, EagerStream, FrontedWire, PatientStream, StreamLimits, end_gently,
};
use http_relay_wire::{SocketWire, Wire, WireFault, write_all};
use std::io;
use std::io::Read;
use std::net::{TcpListener, TcpStream};
use std::test::Fail;
use std::time::{Duration, Instant};

const TIMEOUT: WireFault = WireFault::Timeout;

// Both ends of one connection.
fn pair(rt: &HostRuntime) -> io::Result<(TcpStream, TcpStream)> {
    let listener = TcpListener::bind(rt, "127.0.0.1:0")?;
    let far = TcpStream::connect(rt, listener.local_addr()?)?;
    let (near, _) = listener.accept()?;
    Ok((near, far))
}

// What was read before comes first, then the socket's bytes; the stream is there afterwards, and silence ends a deadline.
#[test]
fn bytes_come_in_turn_until_the_deadline(rt: HostRuntime) -> Result<(), Fail> {
    let (near, far) = pair(&rt)?;
    write_all(&mut SocketWire::new(&far), b"cd")?;
    let mut stream = PatientStream::new(near, Deadline::after(&rt, 100));
    let mut wire = FrontedWire::new(SocketWire::new(&mut stream), b"ab", None);
    let mut buffer = [0; 4];
    let first = wire.read(&mut buffer)?;
    let second = wire.read(&mut buffer[first..])?;
    let third = wire.read(&mut [0; 4]);
    let fourth = write_all(&mut wire, b"e");
    let near = stream.into_stream();
    assert!(rt;
        (first, second) == (2, 2)
            && buffer == *b"abcd"
            && third == Err(TIMEOUT)
            && fourth == Err(TIMEOUT)
    );
    assert!(rt; near.read_timeout()?.is_some());
    Ok(())
}

// Both ends of one connection, of which the near one's reads and writes have limits.
fn limited_pair(rt: &HostRuntime) -> Result<(TcpStream, TcpStream), Fail> {
    let (near, far) = pair(rt)?;
    let limits = StreamLimits {
        read: Some(50),
        write: Some(50),
    };
    limits.set(&near)?;
    Ok((near, far))
}

// A peer that takes nothing fails a write at its limit, and a peer that says nothing a read. A part of the bytes went out.
#[test]
fn limits_hold_for_reads_and_writes(rt: HostRuntime) -> Result<(), Fail> {
    let (near, far) = limited_pair(&rt)?;
    let bytes = Vec::from_elem(rt.alloc(), 7, 20_000_000)?;
    let mut wire = SocketWire::new(&near);
    let written = write_all(&mut wire, &bytes);
    let read = wire.read(&mut [0; 8]);
    assert!(rt; written == Err(TIMEOUT) && read == Err(TIMEOUT));
    drop(far);
    Ok(())
}

// How a read and a write of all these bytes end, and how many milliseconds both took.
fn timed(
    rt: &HostRuntime,
    wire: &mut impl Wire,
    bytes: &[u8],
) -> Result<(Result<usize, WireFault>, Result<(), WireFault>, u128), Fail> {
    let begun = Instant::now(rt)?;
    let read = wire.read(&mut [0; 8]);
    let written = write_all(wire, bytes);
    Ok((read, written, begun.elapsed(rt)?.as_millis()))
}

// Whether a read fails at once, though it might wait long.
fn fails_at_once(rt: &HostRuntime, mut stream: TcpStream) -> Result<bool, Fail> {
    stream.set_read_timeout(Some(Duration::from_millis(5000)))?;
    let begun = Instant::now(rt)?;
    let is_failed = stream.read(&mut [0; 8]).is_err();
    Ok(is_failed && begun.elapsed(rt)?.as_millis() < 1000)
}

// A stream that came set not to block waits as long as its limits say, and at its end doesn't block.
#[test]
fn an_eager_stream_has_its_limits(rt: HostRuntime) -> Result<(), Fail> {
    let (near, far) = limited_pair(&rt)?;
    near.set_nonblocking(true)?;
    let bytes = Vec::from_elem(rt.alloc(), 7, 20_000_000)?;
    let mut stream = EagerStream::new(near);
    let (read, written, waited) = timed(&rt, &mut SocketWire::new(&mut stream), &bytes)?;
    let ends_at_once = fails_at_once(&rt, stream.into_stream()?)?;
    assert!(rt;
        read == Err(TIMEOUT) && written == Err(TIMEOUT) && waited >= 99 && ends_at_once,
        "{waited}"
    );
    drop(far);
    Ok(())
}

// The peer has sent bytes that nobody read. Where the stream ends gently it gets the whole answer and then the end.
#[test]
fn an_answer_is_not_lost_where_bytes_stand_unread(rt: HostRuntime) -> Result<(), Fail> {
    let (near, far) = pair(&rt)?;
    let bytes = Vec::from_elem(rt.alloc(), 7, 100_000)?;
    write_all(&mut SocketWire::new(&far), b"GET / HTTP/1.1\r\n\r\n")?;
    write_all(&mut SocketWire::new(&near), &bytes)?;
    let drained = end_gently(&rt, near, &mut [0; 4096]);
    let mut answer = Vec::new(rt.alloc());
    let mut far = far;
    far.read_to_end(&mut answer)?;
    assert!(rt; drained == Drained::Failed(TIMEOUT) && answer == bytes);
    Ok(())
}

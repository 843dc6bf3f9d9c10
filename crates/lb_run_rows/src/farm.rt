//! Those whom a balancer meets: origins, clients, operators.
use http_relay_listen::listen;
use lb_run::Host;
use std::alloc::Global;
use std::io::{Read, Write};
use std::marker::PhantomData;
use std::net::{Ipv4Addr, OpenListener, SocketAddr, SocketAddrV4, TcpListener, TcpStream};
use std::sync::atomic::{AtomicBool, Ordering};
use std::test::Fail;
use std::thread;
use std::time::Duration;

// How many milliseconds a call of a test's stream waits at most.
const PATIENCE: u64 = 10_000;

// How often a client tries to connect to a balancer that may not listen yet, and the milliseconds between two tries.
const TRIES: u32 = 200;

const PAUSE: u64 = 20;

/// Names the types of sockets in each closure that a thread runs: the prover asks for that.
pub type Sockets = PhantomData<(TcpListener, TcpStream)>;

/// The address of this port on this machine.
pub(crate) fn local(port: u16) -> SocketAddrV4 {
    SocketAddrV4::new(Ipv4Addr::LOCALHOST, port)
}

/// A port that was free just now.
pub(crate) fn free_port<R: Host>(rt: &R) -> Result<u16, Fail> {
    let listener = listen(rt, local(0))?;
    Ok(listener.local_addr()?.port())
}

/// An origin that answers each request with this text, until `end` is set.
pub(crate) fn originate<R: Host>(
    rt: &R,
    listener: TcpListener,
    text: &[u8],
    end: &AtomicBool,
    _sockets: Sockets,
) {
    for _ in rt.forever() {
        if end.load(Ordering::SeqCst) {
            break;
        }
        if let Ok((mut stream, _)) = listener.accept() {
            let mut room = [0; 1024];
            let _ = stream.read(&mut room);
            let _ = stream.write_all(text);
        }
    }
}

/// What comes back for these bytes at this port.
pub(crate) fn ask<R: Host>(
    rt: &R,
    alloc: Global,
    port: u16,
    bytes: &[u8],
) -> Result<Vec<u8>, Fail> {
    Ok(answer_to(rt, alloc, port, bytes).ok_or("nobody answers")?)
}

/// What comes back for these bytes at this port, if somebody listens there and answers in time.
pub(crate) fn answer_to<R: Host>(
    rt: &R,
    alloc: Global,
    port: u16,
    bytes: &[u8],
) -> Option<Vec<u8>> {
    let mut stream = connect(rt, port)?;
    stream.write_all(bytes).ok()?;
    let mut answer = Vec::new(alloc);
    stream.read_to_end(&mut answer).ok()?;
    Some(answer)
}

fn connect<R: Host>(rt: &R, port: u16) -> Option<TcpStream> {
    for _ in 0..TRIES {
        if let Ok(stream) = rt.connect(SocketAddr::V4(local(port))) {
            stream
                .set_read_timeout(Some(Duration::from_millis(PATIENCE)))
                .ok()?;
            return Some(stream);
        }
        thread::sleep(rt, Duration::from_millis(PAUSE));
    }
    None
}

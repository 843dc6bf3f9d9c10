use crate::site::{NOWHERE, OPEN, TIMED, arrival, client, config, got, open_port};
use http_relay_lobby::{Arrival, WaitingLine, waiting_line};
use http_relay_work::{Post, Relay, Roster, work};
use lb_desk_ports::{OpenGate, PortScript, ScriptedPort};
use std::alloc::Global;
use std::io;
use std::io::{Read, Write};
use std::net::{Net, TcpListener, TcpStream};
use std::os::fd::AsRawFd;
use std::sync::Wait;
use std::test::Fail;
use std::thread::join;
use std::time::{Clock, Instant};

const REQUEST: &[u8] = b"GET / HTTP/1.1\r\nHost: a\r\n\r\n";

const RESPONSE: &[u8] = b"HTTP/1.1 200 OK\r\nContent-Length: 2\r\n\r\nok";

// Answers so many requests, each over a connection of its own.
fn answer(listener: &TcpListener, count: usize) -> io::Result<()> {
    for _ in 0..count {
        let (mut stream, _) = listener.accept()?;
        stream.read(&mut [0; 256])?;
        stream.write_all(RESPONSE)?;
    }
    Ok(())
}

// A worker with one port, which gives that back. None without memory, or where one port is not enough.
fn work_with_one_port<'a, R: Net + Clock + Wait>(
    rt: &R,
    alloc: Global,
    relay: Relay<'_>,
    from: &WaitingLine<R::Stream>,
    port: &'a PortScript<'a>,
) -> Option<Vec<ScriptedPort<'a>>>
where
    R::Stream: AsRawFd,
{
    let mut ports = Vec::new(alloc);
    ports.push(ScriptedPort::new(alloc, port)).ok()?;
    if ports.len() < relay.config.backends().len() {
        return None;
    }
    let roster = Roster::new(alloc, 1).ok()?;
    let post = Post::at_the_line(&roster, 0);
    Some(work(rt, alloc, relay, from, post, OpenGate, ports))
}

// Whether the one port has so many events.
fn has_events(ports: Option<&[ScriptedPort<'_>]>, count: usize) -> bool {
    match ports {
        Some([port]) => port.entries().len() == count,
        _ => false,
    }
}

// A request whose client has reset its connection since.
fn reset_arrival(rt: &HostRuntime) -> Result<Option<Arrival<TcpStream>>, Fail> {
    let (mut stream, far) = client(rt, b"", false)?;
    // The system resets a connection that is closed before all is read.
    stream.write_all(b"unread")?;
    drop(far);
    Ok(arrival(rt, stream, OPEN, REQUEST, None)?)
}

// Two clients that have ended their direction get the server's response, and one whose frontend isn't there gets nothing. For one that
// has reset its connection no server is asked. Then the line has ended, and so has the worker: its port has four events of each request
// that was served.
#[test]
fn a_worker_serves_what_stands_in_the_line(rt: HostRuntime) -> Result<(), Fail> {
    let server = TcpListener::bind(&rt, "127.0.0.1:0")?;
    let config = config(&rt, server.local_addr()?.port())?;
    let (mut lanes, from) = waiting_line(rt.alloc(), 1)?;
    let lane = lanes.pop().ok_or("a lane")?;
    if let Some(arrival) = reset_arrival(&rt)? {
        lane.try_send(&rt, arrival).ok().ok_or("room in the lane")?;
    }
    let mut clients = Vec::new(rt.alloc());
    for frontend in [OPEN, NOWHERE, TIMED] {
        let (stream, far) = client(&rt, b"", true)?;
        if let Some(arrival) = arrival(&rt, stream, frontend, REQUEST, None)? {
            lane.try_send(&rt, arrival).ok().ok_or("room in the lane")?;
        }
        clients.push(far)?;
    }
    drop(lane);
    let relay = Relay {
        config: &config,
        start: Instant::now(&rt)?,
    };
    let port = open_port();
    let (ports, answered) = join(
        &rt,
        || work_with_one_port(&rt, rt.alloc(), relay, &from, &port),
        || answer(&server, 2),
    );
    answered?;
    for (mut far, wanted) in clients.into_iter().zip([RESPONSE, b"", RESPONSE]) {
        assert!(rt; got(&rt, &mut far)?.as_slice() == wanted);
    }
    assert!(rt; has_events(ports.as_deref(), 8));
    Ok(())
}

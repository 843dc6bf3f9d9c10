use crate::site::{NOWHERE, OPEN, TIMED, arrival, client, config, got, open_port};
use http_relay_head::HEAD_ROOM;
use http_relay_serve::{Cause, DropCause, Outcome, Worker};
use http_relay_socket::StreamLimits;
use http_relay_system::{SocketDialer, SystemClock};
use http_relay_wire::WireFault;
use http_relay_work::{Leavers, Relay, end_served, over_wire, serve_arrival};
use lb_desk_ports::{OpenGate, PortScript, ScriptedPort};
use std::net::{Net, TcpListener, TcpStream};
use std::sync::Wait;
use std::test::Fail;
use std::time::{Clock, Instant};

/// The frontend, what the lobby read of the client and how that ended, what follows on the stream and whether that ends there, the
/// outcome, and what the client gets.
type Row = (
    usize,
    &'static [u8],
    Option<WireFault>,
    &'static [u8],
    bool,
    Option<Outcome>,
    &'static [u8],
);

const REQUEST: &[u8] = b"GET / HTTP/1.1\r\nHost: a\r\n\r\n";

// As the listener of a frontend sets them.
const LIMITS: StreamLimits = StreamLimits {
    read: Some(50),
    write: Some(50),
};

const BROKEN_OFF: Option<Outcome> = Some(Outcome::Dropped(DropCause::HeadBroken));

// Nobody listens at the server's port.
const NOT_DIALLED: Option<Outcome> = Some(Outcome::Answered(Cause::NotDialled(WireFault::Broken)));

const UNAVAILABLE: &[u8] =
    b"HTTP/1.1 503 Service Unavailable\r\nContent-Length: 0\r\nConnection: close\r\n\r\n";

const BAD_REQUEST: &[u8] =
    b"HTTP/1.1 400 Bad Request\r\nContent-Length: 0\r\nConnection: close\r\n\r\n";

const ROWS: &[Row] = &[
    (OPEN, REQUEST, None, b"", true, NOT_DIALLED, UNAVAILABLE),
    (
        TIMED,
        b"GET / HTTP/1.1\r\n",
        None,
        b"Host: a\r\n\r\n",
        false,
        NOT_DIALLED,
        UNAVAILABLE,
    ),
    (
        OPEN,
        b"GET / HT",
        Some(WireFault::Broken),
        b"",
        false,
        BROKEN_OFF,
        b"",
    ),
    (
        TIMED,
        b"GET / HT",
        Some(WireFault::Timeout),
        b"",
        false,
        Some(Outcome::Answered(Cause::HeadTimedOut)),
        b"HTTP/1.1 408 Request Timeout\r\nContent-Length: 0\r\nConnection: close\r\n\r\n",
    ),
    (
        OPEN,
        b"GET / HT",
        None,
        b"",
        true,
        Some(Outcome::Answered(Cause::HeadCutShort)),
        BAD_REQUEST,
    ),
    (NOWHERE, REQUEST, None, b"", true, None, b""),
];

// Serves the row's request over one port, and gives the outcome and what the client got.
fn serve<'a, R: Net<Stream = TcpStream> + Clock + Wait>(
    rt: &HostRuntime,
    waits: &R,
    relay: Relay<'_>,
    port: &'a PortScript<'a>,
    row: &Row,
) -> Result<(Option<Outcome>, Vec<u8>), Fail> {
    let (frontend, head, failed, sent, ends, _, _) = *row;
    let (stream, mut far) = client(rt, sent, ends)?;
    LIMITS.set(&stream)?;
    let Some(arrival) = arrival(rt, stream, frontend, head, failed)? else {
        return Ok((None, Vec::new(rt.alloc())));
    };
    let mut worker = Worker {
        clock: SystemClock::new(relay.start),
        gate: OpenGate,
        dialer: SocketDialer::new(),
    };
    let mut ports = Vec::new(rt.alloc());
    ports.push(ScriptedPort::new(rt.alloc(), port))?;
    if ports.len() < relay.config.backends().len() {
        return Ok((None, Vec::new(rt.alloc())));
    }
    let mut room = [0; HEAD_ROOM];
    let mut leavers = Leavers::new(rt.alloc());
    let served = serve_arrival(
        waits,
        rt.alloc(),
        relay,
        &mut worker,
        over_wire(arrival),
        &mut ports,
        &mut room,
    );
    let mut outcome = None;
    if let Some(served) = served {
        outcome = Some(served.outcome);
        end_served(waits, &mut worker, served, &mut leavers);
    }
    Ok((outcome, got(rt, &mut far)?))
}

// What the lobby read comes before what the stream has, and what it saw of the reading's end is what the worker's reading ends with.
#[test]
fn connections_end_as_their_frontend_says(rt: HostRuntime) -> Result<(), Fail> {
    let gone = TcpListener::bind(&rt, "127.0.0.1:0")?.local_addr()?.port();
    let config = config(&rt, gone)?;
    let start = Instant::now(&rt)?;
    let port = open_port();
    for row in ROWS {
        let (_, head, _, _, _, wanted, text) = row;
        let relay = Relay {
            config: &config,
            start,
        };
        let (outcome, answer) = serve(&rt, &rt, relay, &port, row)?;
        assert!(rt;
            outcome == *wanted && answer.as_slice() == *text,
            "{head:?}: {outcome:?}"
        );
    }
    Ok(())
}

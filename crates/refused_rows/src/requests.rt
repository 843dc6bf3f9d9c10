//! A chunked upload through the relay, over memory. Its wires allocate too: one that is refused memory breaks.

use crate::marks::{begin, end, tell};
use http_relay_dial::{DialScript, ScriptedDialer};
use http_relay_head::HEAD_ROOM;
use http_relay_serve::{Cause, Client, DropCause, Outcome, Worker, serve_one};
use http_relay_wire::{Script, ScriptedWire, WireFault};
use lb_config::{Config, read_config};
use lb_desk_model::{Entry, Reply, ServedAs};
use lb_desk_ports::{
    Asked, Filed, OpenGate, Pinning, PortScript, Refused, ScriptedClock, ScriptedPort, Shut,
};
use lb_routes::ConfigRoutes;
use lb_types::ServerId;
use std::alloc::Global;
use std::net::Ipv4Addr;
use std::process::Abort;
use std::slice;
use std::test::Fail;

const TEXT: &[u8] = b"frontend f
    bind 127.0.0.1:8000
    default_backend web
backend web
    stick-table type string size 10
    stick on hdr(x-id)
    server a 127.0.0.1:8001
";

const UPLOAD: &[u8] =
    b"POST /up HTTP/1.1\r\nHost: x\r\nX-Id: k1\r\nTransfer-Encoding: chunked\r\n\r\n\
    10\r\n0123456789abcdef\r\n0\r\n\r\n";

const SENT: &[u8] =
    b"POST /up HTTP/1.1\r\nHost: x\r\nX-Id: k1\r\nTransfer-Encoding: chunked\r\nConnection: close\r\n\r\n\
    10\r\n0123456789abcdef\r\n0\r\n\r\n";

const RESPONSE: &[u8] = b"HTTP/1.1 200 OK\r\n\r\nok";

const INTERNAL_SERVER_ERROR: &[u8] =
    b"HTTP/1.1 500 Internal Server Error\r\nContent-Length: 0\r\nConnection: close\r\n\r\n";

const BAD_GATEWAY: &[u8] =
    b"HTTP/1.1 502 Bad Gateway\r\nContent-Length: 0\r\nConnection: close\r\n\r\n";

const SERVICE_UNAVAILABLE: &[u8] =
    b"HTTP/1.1 503 Service Unavailable\r\nContent-Length: 0\r\nConnection: close\r\n\r\n";

/// A backend that gives each request its one server.
fn port() -> PortScript<'static> {
    PortScript {
        asked: Asked::Served(ServerId::new(0), ServedAs::Made),
        set: Pinning::NoTable,
        openings: &[],
        shut: Shut::Closed,
        filed: Filed::NotChecked,
        refusing: None,
    }
}

/// What became of the upload. It is judged where the wires are, so that nothing of theirs has to be kept.
#[derive(Clone, Copy)]
struct Served {
    outcome: Outcome,
    /// Its client got what is owed for that.
    is_owed: bool,
    /// Its client got the response, and its server, if it is known what that got, the upload.
    is_whole: bool,
    is_slot_back: bool,
}

/// Whether a call's requests for memory may be refused.
#[derive(Clone, Copy, PartialEq, Eq)]
enum Memory {
    Refused,
    Given,
}

/// Relays the upload.
fn serve<R>(rt: &R, alloc: Global, config: &Config, memory: Memory) -> Result<Served, Fail> {
    let Some(routes) = ConfigRoutes::at(config, 0) else {
        return Err(Fail::new("no frontend"));
    };
    let script = port();
    let mut ports = vec![in alloc; ScriptedPort::new(alloc, &script)]?;
    if config.backends().len() > ports.len() {
        return Err(Fail::new("several backends"));
    }
    let server: DialScript<'_> = Ok((RESPONSE, Script::SMOOTH));
    let mut worker = Worker {
        clock: ScriptedClock::new(alloc, 7),
        gate: OpenGate,
        dialer: ScriptedDialer::new(alloc, slice::from_ref(&server)),
    };
    let mut client = Client {
        wire: ScriptedWire::new(alloc, UPLOAD, Script::SMOOTH),
        source: Ipv4Addr::new(10, 0, 0, 7),
    };
    let mut room = [0; HEAD_ROOM];
    if memory == Memory::Refused {
        begin(alloc)?;
    }
    let outcome = serve_one(
        rt,
        alloc,
        &mut worker,
        &routes,
        &mut ports,
        &mut client,
        &mut room,
    );
    if memory == Memory::Refused {
        end(alloc)?;
    }
    let answer = client.wire.written();
    let sent = sent(&worker.dialer);
    Ok(Served {
        outcome,
        is_owed: is_owed(outcome, answer, sent),
        is_whole: answer == RESPONSE && (sent.is_none() || sent == Some(SENT)),
        is_slot_back: is_slot_back(&ports),
    })
}

/// What the one server got, if the dialer remembers.
fn sent<'a>(dialer: &'a ScriptedDialer<'_>) -> Option<&'a [u8]> {
    match dialer.talks() {
        Some([talk]) => Some(talk.written()),
        _ => None,
    }
}

/// Whether the slot that the backend opened, if it did, was given back.
fn is_slot_back(ports: &[ScriptedPort<'_>]) -> bool {
    match ports {
        [port] => count(port.entries(), &Reply::Opened) == count(port.entries(), &Reply::Closed),
        _ => false,
    }
}

fn count(entries: &[Entry], reply: &Reply) -> usize {
    entries.iter().filter(|entry| entry.reply == *reply).count()
}

/// Whether the outcome says that memory was wanting.
fn is_for_memory(outcome: &Outcome) -> bool {
    match outcome {
        Outcome::Answered(cause) => is_memory(*cause),
        Outcome::Dropped(DropCause::AnswerNotTaken(cause, WireFault::Broken)) => is_memory(*cause),
        _ => false,
    }
}

fn is_memory(cause: Cause) -> bool {
    match cause {
        Cause::HeadMemory => true,
        Cause::RequestMemory => true,
        Cause::RequestRefused(Refused::Memory) => true,
        Cause::OpenRefused(Refused::Memory) => true,
        _ => false,
    }
}

/// Whether the client got what is owed for an outcome without memory: a wire that is refused it breaks.
fn is_owed(outcome: Outcome, answer: &[u8], sent: Option<&[u8]>) -> bool {
    match outcome {
        Outcome::Relayed => answer == RESPONSE,
        Outcome::Answered(Cause::HeadNotTaken(WireFault::Broken)) => answer == BAD_GATEWAY,
        Outcome::Answered(Cause::BodyNotTaken(WireFault::Broken)) => answer == BAD_GATEWAY,
        Outcome::Answered(Cause::ResponseBroken) => answer == BAD_GATEWAY,
        Outcome::Answered(Cause::NotDialled(WireFault::Broken)) => answer == SERVICE_UNAVAILABLE,
        Outcome::Answered(cause) => {
            is_memory(cause) && answer == INTERNAL_SERVER_ERROR && sent.is_none()
        }
        Outcome::Dropped(DropCause::ResponseNotTaken(WireFault::Broken)) => {
            RESPONSE.starts_with(answer)
        }
        Outcome::Dropped(DropCause::AnswerNotTaken(_, WireFault::Broken)) => answer.is_empty(),
        Outcome::Dropped(_) => false,
    }
}

#[test]
fn a_chunked_upload(rt: HostRuntime) -> Result<(), Fail> {
    let alloc = rt.alloc();
    let config = read_config(alloc, TEXT)?;
    uploads(&rt, alloc, &config)
}

fn uploads(rt: &impl Abort, alloc: Global, config: &Config) -> Result<(), Fail> {
    let mut last = serve(rt, alloc, config, Memory::Refused)?;
    assert!(rt; last.is_slot_back, "a slot is kept");
    assert!(rt; last.is_owed, "not owed for {:?}", last.outcome);
    if is_for_memory(&last.outcome) {
        tell(alloc)?;
    }
    if last.outcome != Outcome::Relayed {
        last = serve(rt, alloc, config, Memory::Given)?;
    }
    assert_eq!(rt; last.outcome, Outcome::Relayed);
    assert!(rt; last.is_whole, "not this response, or not this upload");
    assert!(rt; last.is_slot_back, "a slot is kept");
    Ok(())
}

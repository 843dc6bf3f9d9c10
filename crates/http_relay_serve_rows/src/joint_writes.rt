use http_relay_body::BodyFault;
use http_relay_exchange::{ExchangeFault, Outgoing, SendFault, exchange};
use http_relay_forward::BodyKind;
use http_relay_wire::{Script, ScriptedWire, WireFault, write_all};
use std::alloc::Global;

const HEAD: &[u8] = b"POST /e HTTP/1.1\r\nConnection: close\r\n\r\n";

const RESPONSE: &[u8] = b"HTTP/1.1 200 OK\r\n\r\nok";

const FORM: [u8; 500] = [b'f'; 500];

// A server that takes at most so many bytes at a write, and whose write of this number fails.
fn server(alloc: Global, most: usize, failing: u64) -> ScriptedWire<'static> {
    let script = Script {
        most_written: most,
        failing_write: Some((failing, WireFault::Timeout)),
        ..Script::SMOOTH
    };
    ScriptedWire::new(alloc, RESPONSE, script)
}

// The body's kind, what came after the head, what comes later, and what goes out with the head.
type Row = (BodyKind, &'static [u8], &'static [u8], &'static [u8]);

const ROWS: &[Row] = &[
    (BodyKind::Empty, b"", b"", b""),
    (BodyKind::Empty, b"GET", b"", b""),
    (BodyKind::Length(500), &FORM, b"", &FORM),
    (BodyKind::Length(2), b"hiGET", b"", b"hi"),
    (BodyKind::Length(2), b"h", b"i", b"h"),
    (BodyKind::Length(2), b"", b"hi", b""),
    (BodyKind::Length(0), b"GET", b"", b""),
    (
        BodyKind::Chunked,
        b"2\r\nhi\r\n0\r\n\r\n",
        b"",
        b"2\r\nhi\r\n0\r\n\r\n",
    ),
    (
        BodyKind::Chunked,
        b"0\r\na: b\r\n\r\nGET",
        b"",
        b"0\r\na: b\r\n\r\n",
    ),
    (
        BodyKind::Chunked,
        b"2\r\nhi\r\n2\r\nh",
        b"o\r\n0\r\n\r\n",
        b"2\r\nhi\r\n",
    ),
    (
        BodyKind::Chunked,
        b"2\r\nhi\r\n0\r\na: b\r\n",
        b"\r\n",
        b"2\r\nhi\r\n",
    ),
    (BodyKind::Chunked, b"2\r\nhi\r", b"\n0\r\n\r\n", b""),
    (BodyKind::Chunked, b"2\r\nhi\r\nx", b"", b"2\r\nhi\r\n"),
];

// What went out in the first write, where the server takes all at once: all of it is there before the second fails, and nothing
// before the first does. What came after the head is distinguished from what the client sends later.
#[test]
fn a_head_and_what_came_of_its_body_go_out_in_one_write(rt: HostRuntime) {
    for (kind, behind, later, together) in ROWS {
        let request = Outgoing::new(HEAD, *kind, behind, false);
        let mut client = ScriptedWire::new(rt.alloc(), later, Script::SMOOTH);
        let mut none_taken = server(rt.alloc(), usize::MAX, 0);
        let none = exchange(&request, 0, &mut client, &mut none_taken);
        let untouched = client.unread() == *later;
        let mut one_taken = server(rt.alloc(), usize::MAX, 1);
        let _one = exchange(&request, 0, &mut client, &mut one_taken);
        assert!(rt;
            none == Err(ExchangeFault::Send(SendFault::Head(WireFault::Timeout)))
                && none_taken.written().is_empty()
                && untouched
                && one_taken.written().strip_prefix(HEAD) == Some(*together),
            "{kind:?} {behind:?}"
        );
    }
}

// How a request fails whose second write fails, when the first took so many bytes.
fn second_fails(taken: usize, all: usize) -> Option<SendFault> {
    if taken < HEAD.len() {
        return Some(SendFault::Head(WireFault::Timeout));
    }
    if taken < all {
        return Some(SendFault::Body(BodyFault::Server(WireFault::Timeout)));
    }
    None
}

// Wherever the first write ends: what goes out is whole, and a fault in the next write is the head's before its end, and the body's
// after it.
#[test]
fn a_write_may_end_anywhere_in_head_and_body(rt: HostRuntime) {
    for (kind, body) in [
        (BodyKind::Length(500), FORM.as_slice()),
        (BodyKind::Chunked, b"2\r\nhi\r\n0\r\n\r\n"),
    ] {
        let request = Outgoing::new(HEAD, kind, body, false);
        let all = HEAD.len() + body.len();
        for taken in 1..=all {
            let mut client = ScriptedWire::new(rt.alloc(), b"", Script::SMOOTH);
            let mut slow = server(rt.alloc(), taken, u64::MAX);
            let whole = exchange(&request, 0, &mut client, &mut slow);
            let mut failing = server(rt.alloc(), taken, 1);
            let cut = exchange(&request, 0, &mut client, &mut failing);
            let cause = match cut {
                Ok(_) => None,
                Err(ExchangeFault::Send(fault)) => Some(fault),
                Err(ExchangeFault::Copy(_)) => Some(SendFault::Continue(WireFault::Broken)),
            };
            assert!(rt;
                whole == Ok(RESPONSE.len() as u64)
                    && slow.written().strip_prefix(HEAD) == Some(body)
                    && cause == second_fails(taken, all)
                    && slow.written().starts_with(failing.written())
                    && failing.written().len() == taken,
                "{kind:?} {taken}"
            );
        }
    }
}

// The kind of the body, what came after the head, what comes later, whether the client waits for `100 Continue`, what of the request
// may go out with the dial, and its body.
type OpeningRow = (
    BodyKind,
    &'static [u8],
    &'static [u8],
    bool,
    &'static [u8],
    &'static [u8],
);

const OPENINGS: &[OpeningRow] = &[
    (BodyKind::Empty, b"", b"", false, HEAD, b""),
    (BodyKind::Length(2), b"", b"hi", false, HEAD, b"hi"),
    (
        BodyKind::Chunked,
        b"",
        b"0\r\n\r\n",
        false,
        HEAD,
        b"0\r\n\r\n",
    ),
    (BodyKind::Length(2), b"hi", b"", false, b"", b"hi"),
    (BodyKind::Empty, b"GET", b"", false, b"", b""),
    (BodyKind::Length(2), b"", b"hi", true, b"", b"hi"),
];

// However much of the opening was taken with the dial, the server gets the same.
#[test]
fn what_was_taken_with_the_dial_is_not_sent_again(rt: HostRuntime) {
    for (kind, behind, later, expects_continue, opening, body) in OPENINGS {
        let request = Outgoing::new(HEAD, *kind, behind, *expects_continue);
        assert_eq!(rt; request.opening(), *opening);
        for taken in 0..=opening.len() {
            let mut client = ScriptedWire::new(rt.alloc(), later, Script::SMOOTH);
            let mut server = server(rt.alloc(), usize::MAX, u64::MAX);
            write_all(&mut server, &opening[..taken]).expect(&rt, "a server that takes");
            let answer = exchange(&request, taken, &mut client, &mut server);
            assert!(rt;
                answer == Ok(RESPONSE.len() as u64)
                    && server.written().strip_prefix(HEAD) == Some(*body),
                "{kind:?} {behind:?} {taken}"
            );
        }
    }
}

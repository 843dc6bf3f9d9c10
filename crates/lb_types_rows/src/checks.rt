use check_workers_probe::Probing;
use check_workers_rule::{CheckRequest, CheckRule, RequestLine};
use http_relay_wire::{Script, ScriptedWire, WireFault};
use lb_acl::Version;
use std::alloc::{AllocError, Global};
use std::net::Ipv4Addr;

const LOCAL: Ipv4Addr = Ipv4Addr::LOCALHOST;

// The servers of one line have each their own host.
#[test]
fn each_server_is_sent_its_own_request(rt: HostRuntime) {
    let old = RequestLine::new(rt.alloc(), b"OPTIONS", b"/", Version::Http10).expect(&rt, "memory");
    let new = RequestLine::new(rt.alloc(), b"GET", b"/h", Version::Http11).expect(&rt, "memory");
    let shared = new.share().expect(&rt, "memory");
    let cases: [(&RequestLine, u16, &[u8], &[u8]); 4] = [
        (&old, 80, b"OPTIONS / HTTP/1.0\r\n", b"\r\n"),
        (
            &new,
            8001,
            b"GET /h HTTP/1.1\r\n",
            b"Host: 127.0.0.1:8001\r\n\r\n",
        ),
        (
            &shared,
            8001,
            b"GET /h HTTP/1.1\r\n",
            b"Host: 127.0.0.1:8001\r\n\r\n",
        ),
        (
            &shared,
            80,
            b"GET /h HTTP/1.1\r\n",
            b"Host: 127.0.0.1:80\r\n\r\n",
        ),
    ];
    for (request, port, line, fields) in cases {
        let rule = CheckRule::http(rt.alloc(), request, LOCAL, port).expect(&rt, "memory");
        assert!(rt;
            rule.request() == Some(CheckRequest { line, fields }),
            "{port}"
        );
    }
}

#[test]
fn a_bare_connect_sends_and_reads_nothing(rt: HostRuntime) {
    let rule = CheckRule::connect();
    let mut wire = ScriptedWire::new(rt.alloc(), b"HTTP/1.0 500 No\r\n\r\n", Script::SMOOTH);
    let mut probing = Probing::new(rt.alloc(), &rule).expect(&rt, "memory");
    assert!(rt; rule.request().is_none() && probing.go_on(&mut wire) == Some(true));
    assert_eq!(rt; (wire.written(), wire.unread().len()), (b"".as_slice(), 19));
}

const REQUEST: &[u8] = b"GET /h HTTP/1.1\r\nHost: 127.0.0.1:8001\r\n\r\n";

fn rule(alloc: Global) -> Result<CheckRule, AllocError> {
    let line = RequestLine::new(alloc, b"GET", b"/h", Version::Http11)?;
    CheckRule::http(alloc, &line, LOCAL, 8001)
}

/// Responses, and whether the server is up by them.
const RESPONSES: &[(&[u8], bool)] = &[
    (b"HTTP/1.0 204 No Content\r\n\r\n", true),
    (b"HTTP/1.0 400 No Content\r\n\r\n", false),
    (b"HTTP/1.0 204 No Content\r\n", false),
    (b"HTTP/1.1 200 OK\r\nContent-Length: 5\r\n\r\nhello", true),
    (b"HTTP/1.1 399 \r\nX: 1\r\n\r\n", true),
    (b"HTTP/1.1 399\n\n", true),
    (b"\r\nHTTP/1.1 302 Found\r\n\r\n", true),
    (b"HTTP/1.1 199 OK\r\n\r\n", false),
    (
        b"HTTP/1.1 100 Continue\r\n\r\nHTTP/1.1 200 OK\r\n\r\n",
        false,
    ),
    (b"HTTP/1.1 500 OK\r\n\r\n", false),
    (b"HTTP/2 200 OK\r\n\r\n", false),
    (b"HTTP/1.1 20 OK\r\n\r\n", false),
    (b"HTTP/1.1 200 OK\r\nX : 1\r\n\r\n", false),
    (b"SSH-2.0-OpenSSH\r\n", false),
    (b"", false),
];

/// A response that comes whole, and one that comes byte by byte.
const PIECES: &[&[usize]] = &[&[], &[1]];

#[test]
fn responses_and_their_verdicts(rt: HostRuntime) {
    let rule = rule(rt.alloc()).expect(&rt, "memory");
    for (response, verdict) in RESPONSES {
        for pieces in PIECES {
            let script = Script {
                pieces: *pieces,
                ..Script::SMOOTH
            };
            let mut wire = ScriptedWire::new(rt.alloc(), *response, script);
            let mut probing = Probing::new(rt.alloc(), &rule).expect(&rt, "memory");
            let told = probing.go_on(&mut wire);
            assert_eq!(rt;
                (told, wire.written()),
                (Some(*verdict), REQUEST),
                "{response:?}"
            );
        }
    }
}

// The response comes in three reads, the request goes out in two writes, one of its line and one of its fields. Where a call has to
// wait there is no answer yet; the probe then goes on where it was, and can be made again.
#[test]
fn a_fault_before_the_answer_is_a_no_or_not_yet(rt: HostRuntime) {
    let rule = rule(rt.alloc()).expect(&rt, "memory");
    let mut probing = Probing::new(rt.alloc(), &rule).expect(&rt, "memory");
    for fault in [WireFault::Timeout, WireFault::Broken] {
        for at in 0..4 {
            let of_reads = Script {
                pieces: &[9],
                failing_read: Some((at, fault)),
                ..Script::SMOOTH
            };
            let of_writes = Script {
                most_written: 25,
                failing_write: Some((at, fault)),
                ..Script::SMOOTH
            };
            for (script, is_before) in [(of_reads, at == 3), (of_writes, at >= 2)] {
                let mut wire = ScriptedWire::new(
                    rt.alloc(),
                    b"HTTP/1.0 204 No Content\r\n\r\n",
                    script,
                );
                probing.restart();
                let told = probing.go_on(&mut wire);
                let expected = match fault {
                    _ if is_before => Some(true),
                    WireFault::Timeout => None,
                    WireFault::Broken => Some(false),
                };
                assert_eq!(rt; told, expected, "{script:?}");
                if told.is_none() {
                    let told = (probing.go_on(&mut wire), wire.written());
                    assert_eq!(rt; told, (Some(true), REQUEST), "{script:?}");
                }
            }
        }
    }
}

/// A response whose head has so many fields, of the name `X` and a value of this length.
fn response_of(alloc: Global, count: usize, length: usize) -> Result<Vec<u8>, AllocError> {
    let value = vec![in alloc; b'x'; length]?;
    let mut response = Vec::from_slice(alloc, b"HTTP/1.1 200 OK\r\n")?;
    for _ in 0..count {
        response.extend_from_slice(b"X: ")?;
        response.extend_from_slice(&value)?;
        response.extend_from_slice(b"\r\n")?;
    }
    response.extend_from_slice(b"\r\n")?;
    Ok(response)
}

/// How many fields a head has, how long their values are, its bytes, and whether the server is up by it.
const HEADS: &[(usize, usize, usize, bool)] = &[
    (1, 16360, 16384, true),
    (1, 16361, 16385, false),
    (1, 39976, 40000, false),
    (100, 1, 619, true),
    (101, 1, 625, false),
];

// A head of one field has 24 bytes, and those of its value.
#[test]
fn heads_at_the_limits(rt: HostRuntime) {
    let rule = rule(rt.alloc()).expect(&rt, "memory");
    for (count, length, size, verdict) in HEADS {
        let response = response_of(rt.alloc(), *count, *length).expect(&rt, "memory");
        let mut wire = ScriptedWire::new(rt.alloc(), &response, Script::SMOOTH);
        let mut probing = Probing::new(rt.alloc(), &rule).expect(&rt, "memory");
        let told = (response.len(), probing.go_on(&mut wire));
        assert_eq!(rt;
            told,
            (*size, Some(*verdict)),
            "{count} fields, {length} bytes"
        );
    }
}

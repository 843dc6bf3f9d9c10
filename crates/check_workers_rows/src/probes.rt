ghost use Rattle.std.specs.Prelude.{◌<◌};

use check_workers_round::{Probed, Probes};
use check_workers_rule::{CheckRule, RequestLine};
use check_workers_system::{ProbeTarget, SocketProbes};
use lb_acl::Version;
use lb_types::ServerId;
use std::io::{Read, Write};
use std::net::{Ipv4Addr, TcpListener};
use std::test::Fail;
use std::thread::join;
use std::time::{Duration, Instant};

fn target<'a>(rule: &'a CheckRule, port: u16, limit: u32) -> ProbeTarget<'a> {
    ProbeTarget {
        address: Ipv4Addr::LOCALHOST,
        port,
        rule,
        limit,
    }
}

// Begins a probe of each of the first so many servers.
fn begin_all<P: Probes>(probes: &mut P, count: u8) {
    for place in 0..count {
        let server = ServerId::new(place % 64);
        if !probes.is_under_way(server) {
            probes.begin(server);
        }
    }
}

// The next probe that ends, waited for in rounds of 50 ms, and none after 100 of them.
fn next_of<P: Probes>(probes: &mut P) -> Option<(usize, bool)> {
    for _ in 0..100 {
        if let Some(Probed { server, ok }) = probes.next_ended(50) {
            return Some((server.index(), ok));
        }
    }
    None
}

// A server that listens is well where connecting is all; one that nobody listens for isn't, nor one without a target, nor one whose
// probe may take no time. Each is answered once, and can be probed again.
#[test]
fn who_listens_is_well(rt: HostRuntime) -> Result<(), Fail> {
    let listener = TcpListener::bind(&rt, "127.0.0.1:0")?;
    let open = listener.local_addr()?.port();
    let gone = TcpListener::bind(&rt, "127.0.0.1:0")?.local_addr()?.port();
    let rule = CheckRule::connect();
    let targets = [
        Some(target(&rule, open, 1000)),
        Some(target(&rule, gone, 1000)),
        None,
        Some(target(&rule, open, 0)),
    ];
    let mut probes = SocketProbes::new(&rt, rt.alloc(), &targets)?;
    for _ in 0..2 {
        begin_all(&mut probes, 5);
        let mut answers = [None; 5];
        for _ in 0..5 {
            if let Some((place, ok)) = next_of(&mut probes) {
                if place < 5 {
                    answers[place] = Some(ok);
                }
            }
        }
        let expected = [
            Some(true),
            Some(false),
            Some(false),
            Some(false),
            Some(false),
        ];
        assert!(rt; answers == expected, "{answers:?}");
        assert!(rt; probes.next_ended(0).is_none());
    }
    Ok(())
}

// Servers that take the request and say nothing fail at the limit, all at once and not long after it; a well one beside them is answered
// long before.
#[test]
fn who_says_nothing_fails_at_the_limit_and_delays_nobody(rt: HostRuntime) -> Result<(), Fail> {
    let silent = TcpListener::bind(&rt, "127.0.0.1:0")?;
    let open = TcpListener::bind(&rt, "127.0.0.1:0")?;
    let (port, well) = (silent.local_addr()?.port(), open.local_addr()?.port());
    let line = RequestLine::new(rt.alloc(), b"GET", b"/h", Version::Http11)?;
    let asks = CheckRule::http(rt.alloc(), &line, Ipv4Addr::LOCALHOST, port)?;
    let connects = CheckRule::connect();
    let dark = Some(target(&asks, port, 2000));
    let targets = [dark, dark, dark, Some(target(&connects, well, 2000))];
    let mut probes = SocketProbes::new(&rt, rt.alloc(), &targets)?;
    let begun = Instant::now(&rt)?;
    begin_all(&mut probes, 4);
    let first = next_of(&mut probes);
    let soon = begun.elapsed(&rt)?;
    assert!(rt;
        first == Some((3, true)) && soon < Duration::from_millis(1500),
        "{first:?}, {soon:?}"
    );
    for _ in 0..3 {
        let next = next_of(&mut probes);
        assert!(rt; next.map(|next| next.1) == Some(false), "{next:?}");
    }
    let taken = begun.elapsed(&rt)?;
    let (least, most) = (Duration::from_millis(2000), Duration::from_millis(6000));
    assert!(rt; least <= taken && taken < most, "{taken:?}");
    Ok(())
}

const REQUEST: &[u8; 19] = b"GET /h HTTP/1.0\r\n\r\n";

// A server that answers the request in pieces is well; the request comes whole.
#[test]
fn an_answer_in_pieces_is_judged(rt: HostRuntime) -> Result<(), Fail> {
    let listener = TcpListener::bind(&rt, "127.0.0.1:0")?;
    let port = listener.local_addr()?.port();
    let line = RequestLine::new(rt.alloc(), b"GET", b"/h", Version::Http10)?;
    let rule = CheckRule::http(rt.alloc(), &line, Ipv4Addr::LOCALHOST, port)?;
    let targets = [Some(target(&rule, port, 5000))];
    let mut probes = SocketProbes::new(&rt, rt.alloc(), &targets)?;
    let serves = || -> bool {
        let Ok((mut stream, _)) = listener.accept() else {
            return false;
        };
        // The request's line and its fields are written one after the other.
        let mut asked = [0; 19];
        let is_whole = stream.read_exact(&mut asked).is_ok();
        for piece in [b"HTTP/1.0 ".as_slice(), b"204 No", b" Content\r\n\r\n"] {
            std::thread::sleep(&rt, Duration::from_millis(20));
            if stream.write(piece).is_err() {
                return false;
            }
        }
        is_whole && asked == *REQUEST
    };
    let (served, answer) = join(&rt, serves, || {
        begin_all(&mut probes, 1);
        next_of(&mut probes)
    });
    assert!(rt; served && answer == Some((0, true)), "{answer:?}");
    Ok(())
}

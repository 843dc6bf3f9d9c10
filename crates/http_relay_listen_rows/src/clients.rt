use crate::site::{
    LONG, NO_OTHERS, NONE, any_port, connect_all, gather, line, next, patience, rules, take_all,
};
use http_relay_listen::listen_within;
use http_relay_lobby::{Arrival, Rules};
use http_relay_socket::StreamLimits;
use std::io::{ErrorKind, Read, Write};
use std::net::{Ipv4Addr, OpenListener, TcpStream};
use std::sync::atomic::{AtomicBool, Ordering};
use std::test::Fail;
use std::thread::join;
use std::time::{Duration, Instant};

const REQUEST: &[u8] = b"GET / HTTP/1.1\r\nHost: a\r\n\r\n";

// Limits on reads and on writes in milliseconds.
const LIMITS: &[(Option<u32>, Option<u32>)] = &[
    (None, None),
    (Some(0), Some(5000)),
    (Some(60_000), None),
    (Some(5000), Some(60_000)),
];

// Whether the limit that a stream has is the one that was set, which the system may round up a little.
fn is_limit(given: Option<u32>, has: Option<Duration>) -> bool {
    let given = u128::from(given.unwrap_or(0));
    let has = has.map_or(0, |limit| limit.as_millis());
    given <= has && has <= given.saturating_add(20)
}

// Whether the arrival is a request of this host at the fourth frontend, whose stream sends at once what it is given.
fn is_request(arrival: &Arrival<TcpStream>) -> Result<bool, Fail> {
    Ok(
        arrival.stream.nodelay()?
            && (arrival.source, arrival.frontend) == (Ipv4Addr::LOCALHOST, 3)
            && arrival.head.as_slice() == REQUEST
            && arrival.failed.is_none(),
    )
}

// A connection whose head came with it is handed on with its listener's limits, whatever those are, its client and its frontend.
#[test]
fn connections_have_their_limits(rt: HostRuntime) -> Result<(), Fail> {
    for (read, write) in LIMITS {
        let limits = StreamLimits {
            read: *read,
            write: *write,
        };
        let listener = listen_within(&rt, any_port(), limits)?;
        let address = listener.local_addr()?;
        let (to, from) = line(&rt)?;
        let rules = Rules {
            frontend: 3,
            silence: *read,
            most_guests: 8,
            files: NO_OTHERS,
        };
        let stop = AtomicBool::new(false);
        let mut client = TcpStream::connect(&rt, address)?;
        client.write_all(REQUEST)?;
        let (gathered, arrival) = join(
            &rt,
            || gather(&rt, rt.alloc(), listener, rules, &stop, to),
            || {
                let arrival = next(&rt, &from);
                stop.store(true, Ordering::SeqCst);
                arrival
            },
        );
        gathered?;
        let arrival = arrival.ok_or("an arrival")?;
        let stream = &arrival.stream;
        assert!(rt;
            is_limit(*read, stream.read_timeout()?)
                && is_limit(*write, stream.write_timeout()?)
                && is_request(&arrival)?,
            "{read:?}, {write:?}"
        );
    }
    Ok(())
}

// What is accepted is the connection of the client that is reported, and a read of it doesn't wait. Where no client waits no accept
// does.
#[test]
fn accepted_connections_do_not_block(rt: HostRuntime) -> Result<(), Fail> {
    let listener = listen_within(&rt, any_port(), NONE)?;
    let nobody = match listener.accept() {
        Ok(_) => None,
        Err(error) => Some(error.kind()),
    };
    let client = TcpStream::connect(&rt, listener.local_addr()?)?;
    let (mut stream, address) = listener.accept()?;
    let nothing = stream.read(&mut [0]).map_err(|error| error.kind());
    assert!(rt;
        nobody == Some(ErrorKind::WouldBlock)
            && address == client.local_addr()?
            && address == stream.peer_addr()?
            && nothing == Err(ErrorKind::WouldBlock),
        "{address}, {nothing:?}"
    );
    Ok(())
}

// A stop is seen soon, also where clients may be silent for long. Then the listener is closed, and the line has an end.
#[test]
fn a_stop_ends_the_listener_and_the_line(rt: HostRuntime) -> Result<(), Fail> {
    let listener = listen_within(&rt, any_port(), LONG)?;
    let address = listener.local_addr()?;
    let (to, from) = line(&rt)?;
    let stop = AtomicBool::new(false);
    let begun = Instant::now(&rt)?;
    let (gathered, _) = join(
        &rt,
        || gather(&rt, rt.alloc(), listener, rules(LONG, 8), &stop, to),
        || stop.store(true, Ordering::SeqCst),
    );
    gathered?;
    let taken = begun.elapsed(&rt)?;
    let line_ends = next(&rt, &from).is_none();
    let is_refused = TcpStream::connect(&rt, address).is_err();
    assert!(rt;
        taken < Duration::from_millis(2000) && line_ends && is_refused,
        "{taken:?}"
    );
    Ok(())
}

// So many clients come before anything is accepted, and all of them are handed on though no worker takes one meanwhile.
#[test]
fn two_hundred_clients_are_handed_on(rt: HostRuntime) -> Result<(), Fail> {
    let listener = listen_within(&rt, any_port(), LONG)?;
    let clients = connect_all(&rt, listener.local_addr()?, 200, REQUEST)?;
    let (to, from) = line(&rt)?;
    let stop = AtomicBool::new(false);
    let (gathered, taken) = join(
        &rt,
        || gather(&rt, rt.alloc(), listener, rules(LONG, 8), &stop, to),
        || {
            let taken = take_all(&rt, &from, 200);
            stop.store(true, Ordering::SeqCst);
            taken
        },
    );
    gathered?;
    assert!(rt; taken == 200 && clients.len() == 200, "{taken}");
    Ok(())
}

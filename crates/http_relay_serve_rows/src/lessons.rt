use crate::site::{Call, SERVER, its_server, port_script, serve};
use http_relay_serve::Outcome;
use http_relay_wire::Script;
use lb_acl::{KeyLen, KeySample, StickOn, TableType, Text};
use lb_desk_model::Event;
use lb_desk_ports::{Refused, ScriptedPort};
use lb_types::{Moment, ServerId};
use pin_set::PinKey;
use std::process::Abort;

// What the server sends, in pieces of at most how many bytes, the event that the port refuses, and the key of the pin that is set.
type Row = (
    &'static [u8],
    &'static [usize],
    Option<(u64, Refused)>,
    Option<&'static [u8]>,
);

const TEACHES: &[u8] = b"HTTP/1.1 200 OK\r\nSet-Cookie: S=k1; Path=/\r\n\r\nok";

const ROWS: &[Row] = &[
    (TEACHES, &[], None, Some(b"k1")),
    (TEACHES, &[1], None, Some(b"k1")),
    (TEACHES, &[17, 4, 25, 1], None, Some(b"k1")),
    (
        b"HTTP/1.1 103 Early Hints\r\n\r\nHTTP/1.1 200 OK\r\nset-cookie:S=k2\r\n\r\n",
        &[7],
        None,
        Some(b"k2"),
    ),
    (
        b"HTTP/1.1 200 OK\r\nSet-Cookie: S=a\r\nSet-Cookie: S=b\r\n\r\n",
        &[],
        None,
        Some(b"b"),
    ),
    // The pin is refused.
    (TEACHES, &[], Some((3, Refused::Worn)), None),
    (TEACHES, &[], Some((3, Refused::Memory)), None),
    (
        b"HTTP/1.1 200 OK\r\nSet-Cookie: T=k1\r\n\r\n",
        &[],
        None,
        None,
    ),
    (
        b"HTTP/1.1 200 OK\r\nSet-Cookie: S=\r\n\r\n",
        &[],
        None,
        None,
    ),
    (b"HTTP/1.1 200 OK\r\nSet-Cookie: S=k1\r\n", &[3], None, None),
    (b"no answer\r\nSet-Cookie: S=k1\r\n\r\n", &[], None, None),
    (
        b"HTTP/1.1 200 OK\r\n\r\nSet-Cookie: S=k1\r\n\r\n",
        &[],
        None,
        None,
    ),
];

// Whether the only pins that were set at the one port are the one of this key, or none.
fn is_set(ports: &[ScriptedPort<'_>], key: Option<&[u8]>) -> bool {
    match ports {
        [port] => has_set(port, key),
        _ => false,
    }
}

// Whether the only pins that were set are the one of this key, at the site's server and at the request's moment, or none.
fn has_set(port: &ScriptedPort<'_>, key: Option<&[u8]>) -> bool {
    let mut found = false;
    for entry in port.entries() {
        if let Event::Set(pin) = &entry.event {
            let PinKey::Text(text) = &pin.name.key else {
                return false;
            };
            if found || Some(text.as_bytes()) != key {
                return false;
            }
            found = pin.server == ServerId::new(SERVER) && pin.moment == Moment::from_millis(7);
        }
    }
    found == key.is_some()
}

// The answer passes as it came, and teaches its pin.
#[test]
fn answers_teach_their_cookie(rt: HostRuntime) {
    let mut name = Vec::new(rt.alloc());
    name.push(b'S').expect(&rt, "memory");
    let pattern = StickOn {
        sample: KeySample::Cookie(Text::new(name)),
        table: TableType::Text(KeyLen::new(32)),
    };
    for (response, pieces, refusing, key) in ROWS {
        let script = Script {
            pieces,
            ..Script::SMOOTH
        };
        let call = Call {
            is_taken: true,
            is_tagged: false,
            input: b"GET / HTTP/1.1\r\nHost: x\r\n\r\n",
            client: Script::SMOOTH,
            port: port_script(its_server(), &[], *refusing),
            server: Ok((response, script)),
        };
        let served = serve(&rt, rt.alloc(), &call, &pattern, true);
        assert!(rt;
            served.outcome == Outcome::Relayed
                && served.client.written() == *response
                && is_set(&served.ports, *key),
            "{key:?}"
        );
    }
}

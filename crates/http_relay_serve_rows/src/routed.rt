use crate::farm::{API, CLOSED, PAGES, PLAIN, SHOP, TOOLS, farm, fields, head};
use http_relay_serve::Routing;
use lb_config::Config;
use lb_desk_model::Request;
use lb_routes::ConfigRoutes;
use lb_types::{Moment, ServerId};
use pin_set::PinKey;
use std::alloc::Global;
use std::process::Abort;

/// The key that a request is to have.
#[derive(Clone, Copy, Debug)]
enum Key {
    None,
    Text(&'static [u8]),
    Ip([u8; 4]),
}

/// A head at a frontend, and what is said of it. Servers are given by their places.
struct Row {
    frontend: usize,
    method: &'static str,
    target: &'static str,
    lines: &'static [(&'static str, &'static str)],
    source: [u8; 4],
    backend: usize,
    key: Key,
    servers: &'static [usize],
    cost: u16,
}

const HOME: [u8; 4] = [192, 0, 2, 1];

const OFFICE: [u8; 4] = [10, 20, 7, 9];

/// A request for `/` without fields at the shop.
const PLAIN_VISIT: Row = Row {
    frontend: SHOP,
    method: "GET",
    target: "/",
    lines: &[],
    source: HOME,
    backend: PAGES,
    key: Key::None,
    servers: &[],
    cost: 1,
};

const ROWS: &[Row] = &[
    PLAIN_VISIT,
    Row {
        lines: &[("Cookie", "sid=abc")],
        key: Key::Text(b"abc"),
        ..PLAIN_VISIT
    },
    Row {
        lines: &[("Cookie", "sid=abcdefgh")],
        key: Key::Text(b"abcd"),
        ..PLAIN_VISIT
    },
    Row {
        lines: &[("Cookie", "sid=")],
        ..PLAIN_VISIT
    },
    Row {
        target: "/old/x",
        lines: &[("X-Preview", "yes")],
        servers: &[1, 0],
        ..PLAIN_VISIT
    },
    Row {
        method: "POST",
        lines: &[("X-Preview", "no, yes")],
        servers: &[1, 1],
        cost: 30,
        ..PLAIN_VISIT
    },
    Row {
        method: "POST",
        source: OFFICE,
        servers: &[1],
        cost: 20,
        ..PLAIN_VISIT
    },
    Row {
        target: "/api/1",
        lines: &[("X-From", "1.2.3.4")],
        source: OFFICE,
        backend: API,
        key: Key::Ip([1, 2, 3, 4]),
        ..PLAIN_VISIT
    },
    Row {
        target: "/api/1",
        lines: &[("X-From", "1.2.3"), ("Cookie", "sid=abc")],
        backend: API,
        ..PLAIN_VISIT
    },
    Row {
        target: "/plain/1",
        lines: &[("X-From", "1.2.3.4"), ("Cookie", "sid=abc")],
        backend: PLAIN,
        ..PLAIN_VISIT
    },
    Row {
        frontend: TOOLS,
        target: "/pages/1",
        lines: &[("Cookie", "sid=a; sid=b")],
        key: Key::Text(b"b"),
        ..PLAIN_VISIT
    },
    Row {
        frontend: TOOLS,
        target: "/closed/1",
        backend: CLOSED,
        ..PLAIN_VISIT
    },
];

fn is_key(found: Option<&PinKey>, wanted: Key) -> bool {
    match (found, wanted) {
        (None, Key::None) => true,
        (Some(PinKey::Text(text)), Key::Text(bytes)) => text.as_bytes() == bytes,
        (Some(PinKey::Ipv4(address)), Key::Ip(octets)) => {
            address.octets().as_slice() == octets.as_slice()
        }
        _ => false,
    }
}

fn are_servers(servers: &[ServerId], places: &[usize]) -> bool {
    servers.len() == places.len()
        && servers
            .iter()
            .zip(places)
            .all(|(server, place)| server.index() == *place)
}

fn is_request(request: &Request, row: &Row) -> bool {
    is_key(request.key.as_ref(), row.key)
        && are_servers(request.rules.servers(), row.servers)
        && (request.cost, request.moment.as_millis()) == (row.cost, 7)
}

/// The head's backend is the row's, and is asked what the row says.
fn expect_request(rt: &impl Abort, alloc: Global, config: &Config, row: &Row) {
    let routes = ConfigRoutes::at(config, row.frontend).expect(rt, "a frontend");
    let fields = fields(alloc, row.lines).expect(rt, "memory");
    let head = head(row.method, row.target, &fields, row.source);
    let backend = routes.backend(&head).expect(rt, "a backend");
    let request = routes
        .request(alloc, backend, &head, Moment::from_millis(7))
        .expect(rt, "memory");
    assert!(rt;
        backend == row.backend && is_request(&request, row),
        "{} {}: {backend}, {request:?}",
        row.method,
        row.target
    );
}

// The backend of each head, and what it is asked: the key cut to the table's length, the servers of the rules in their order, and the
// cost of the first rule that applies.
#[test]
fn backends_are_asked_what_the_rules_make_of_heads(rt: HostRuntime) {
    let config = farm(&rt, rt.alloc());
    for row in ROWS {
        expect_request(&rt, rt.alloc(), &config, row);
    }
}

/// Whether a frontend of tools has no backend for `/`, and no frontend is the third one.
fn goes_nowhere(config: &Config) -> bool {
    let Some(tools) = ConfigRoutes::at(config, TOOLS) else {
        return false;
    };
    let nowhere = tools.backend(&head("GET", "/", &[], HOME));
    nowhere.is_none() && ConfigRoutes::at(config, 2).is_none()
}

// Where no rule applies and there is no default, no backend takes the head. What is no frontend has no routes.
#[test]
fn some_heads_go_nowhere(rt: HostRuntime) {
    let config = farm(&rt, rt.alloc());
    assert!(rt; goes_nowhere(&config));
}

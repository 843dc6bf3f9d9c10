use crate::farm::{SHOP, TOOLS, farm, head};
use http_relay_dial::{Endpoint, Limits};
use http_relay_serve::Routing;
use http_relay_talk::Way;
use lb_config::Config;
use lb_routes::ConfigRoutes;
use lb_types::ServerId;
use std::net::Ipv4Addr;
use std::process::Abort;

/// The last number of an address 127.0.0.x, a port, and the limits to connect, for each read and write, and in the queue, in
/// milliseconds.
type Reached = (u8, u16, Option<u32>, Option<u32>, Option<u32>);

/// A frontend, a target that leads to a backend, whether servers there get the client's address, a server's number, and how it is
/// reached.
type Row = (usize, &'static str, bool, u8, Option<Reached>);

const ROWS: &[Row] = &[
    (
        SHOP,
        "/",
        false,
        0,
        Some((1, 8001, Some(3000), Some(20000), Some(5000))),
    ),
    (
        SHOP,
        "/",
        false,
        1,
        Some((2, 8002, Some(3000), Some(20000), Some(5000))),
    ),
    (SHOP, "/", false, 2, None),
    (
        SHOP,
        "/api/",
        true,
        0,
        Some((3, 8003, Some(2000), None, Some(2000))),
    ),
    (
        SHOP,
        "/plain/",
        false,
        0,
        Some((4, 8004, Some(4000), None, Some(0))),
    ),
    (SHOP, "/plain/", false, 127, None),
    (
        TOOLS,
        "/pages/",
        true,
        0,
        Some((1, 8001, Some(3000), Some(20000), Some(5000))),
    ),
    (TOOLS, "/closed/", true, 0, None),
];

fn is_way(found: Option<Way>, server: ServerId, wanted: Option<Reached>) -> bool {
    let (Some(target), Some((last, port, connect, transfer, queue))) = (found, wanted) else {
        return found.is_none() && wanted.is_none();
    };
    target
        == Way {
            server,
            endpoint: Endpoint {
                address: Ipv4Addr::new(127, 0, 0, last),
                port,
            },
            limits: Limits { connect, transfer },
            queue,
        }
}

/// The row's server is reached as it says.
fn expect_target(rt: &impl Abort, config: &Config, row: &Row) {
    let (frontend, target, forwards, number, wanted) = *row;
    let routes = ConfigRoutes::at(config, frontend).expect(rt, "a frontend");
    let head = head("GET", target, &[], [192, 0, 2, 1]);
    let backend = routes.backend(&head).expect(rt, "a backend");
    let server = ServerId::new(number % 128);
    let found = routes.target(backend, server);
    assert!(rt;
        is_way(found, server, wanted) && routes.forwards_address(backend) == forwards,
        "{target} {number}: {found:?}"
    );
}

// How the servers of a backend are reached: the queue's limit is its own where it has one, and else that of connecting.
#[test]
fn servers_are_reached_under_the_limits_of_their_backend(rt: HostRuntime) {
    let config = farm(&rt, rt.alloc());
    for row in ROWS {
        expect_target(&rt, &config, row);
    }
}

/// How long the clients of this frontend may take, if there is one.
fn client_limit(config: &Config, place: usize) -> Option<Option<u32>> {
    let routes = ConfigRoutes::at(config, place)?;
    Some(routes.client_limit())
}

// Only one frontend limits how long its clients may take.
#[test]
fn frontends_limit_their_clients(rt: HostRuntime) {
    let config = farm(&rt, rt.alloc());
    let found = (client_limit(&config, SHOP), client_limit(&config, TOOLS));
    assert_eq!(rt; found, (Some(Some(10000)), Some(None)));
}

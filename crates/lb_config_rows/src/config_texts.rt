//! What texts say of the whole program, and of their proxies.

use crate::backends::{TWO_SERVERS, config};
use check_workers_rule::CheckRequest;
use lb_config::{BackendConfig, Config, Frontend};
use lb_config_lines::SocketAddress;
use lb_types::Balance;

/// A text, its relays, its tries and how many warnings it has, the path of its commands' socket, and the length of its backend's journal.
type ProgramRow = (
    &'static [u8],
    (u8, u16, usize),
    Option<&'static [u8]>,
    Option<u32>,
);

const PROGRAMS: &[ProgramRow] = &[
    (TWO_SERVERS, (8, 8, 0), None, Some(100000)),
    (
        b"global\nlog 127.0.0.1 local0\ntune.journal 2\nbackend web\nglobal\ntune.relays 3\nstats socket /run/lb level admin\n",
        (3, 8, 2),
        Some(b"/run/lb"),
        Some(2),
    ),
    // Of each value the last one counts.
    (
        b"global\ntune.relays 3\ntune.journal 2\nstats socket 127.0.0.1:99\ntune.relays 4\nstats socket /run/lb\nbackend web",
        (4, 8, 0),
        Some(b"/run/lb"),
        Some(2),
    ),
    (
        b"global\nstats socket /run/stickylb.sock # operators\ntune.relays 16\ntune.journal 200000\nbackend pages",
        (16, 8, 0),
        Some(b"/run/stickylb.sock"),
        Some(200000),
    ),
];

/// Whether the commands' socket is at this path, or is none.
fn is_at(config: &Config, wanted: Option<&[u8]>) -> bool {
    match (config.socket(), wanted) {
        (Some(SocketAddress::Path(path)), Some(wanted)) => path.as_bytes() == wanted,
        (None, None) => true,
        _ => false,
    }
}

fn is_program(config: &Config, wanted: &ProgramRow) -> bool {
    let (_, numbers, socket, journal) = *wanted;
    let found = match config.backends().first() {
        Some(backend) => Some(backend.journal()),
        None => None,
    };
    (config.relays(), config.tries(), config.warnings().len()) == numbers
        && is_at(config, socket)
        && found == journal
}

#[test]
fn values_of_the_whole_program(rt: HostRuntime) {
    for row in PROGRAMS {
        let (text, _, _, _) = *row;
        let config = config(&rt, rt.alloc(), text);
        assert!(&rt; is_program(&config, row), "{text:?}");
    }
}

/// A backend's name, its balance, whether it has `allbackups`, `evacuate` and `forwardfor`, its limits of a dial, of servers and of the
/// queue, and the weight of its first server, or 0.
type BackRow = (
    &'static [u8],
    Balance,
    (bool, bool, bool),
    [Option<u32>; 3],
    u16,
);

/// A frontend's name, its limit of clients, and whether it has `forwardfor`.
type FrontRow = (&'static [u8], Option<u32>, bool);

/// Texts, their backends and their frontends.
const PROXIES: &[(&[u8], &[BackRow], &[FrontRow])] = &[
    (
        TWO_SERVERS,
        &[(
            b"web",
            Balance::RoundRobin,
            (false, false, false),
            [None; 3],
            1,
        )],
        &[],
    ),
    // Defaults reach up to the next ones.
    (
        b"backend a\ndefaults\nbalance first\ntimeout client 5s\ntimeout server 7\noption forwardfor\ndefault-server weight 9\nbackend b\nserver s 1.2.3.4:1\nbackend c\nbalance leastconn\nlisten l\nbind :80\ndefaults\ntimeout client 6s\nfrontend f\nbackend d\nserver s 1.2.3.4:1\n",
        &[
            (
                b"a",
                Balance::RoundRobin,
                (false, false, false),
                [None; 3],
                0,
            ),
            (
                b"b",
                Balance::First,
                (false, false, true),
                [None, Some(7), None],
                9,
            ),
            (
                b"c",
                Balance::LeastConnections,
                (false, false, true),
                [None, Some(7), None],
                0,
            ),
            (
                b"l",
                Balance::First,
                (false, false, true),
                [None, Some(7), None],
                0,
            ),
            (
                b"d",
                Balance::RoundRobin,
                (false, false, false),
                [None; 3],
                1,
            ),
        ],
        &[(b"l", Some(5000), true), (b"f", Some(6000), false)],
    ),
    // Of each value the last one counts, and what a section says counts for no other.
    (
        b"defaults\nbalance first\ntimeout server 3s\ntimeout client 1m\noption allbackups\nlisten web\nbalance roundrobin\nbalance leastconn\ntimeout server 5\ntimeout queue 0\ndefault_backend web\noption evacuate\nbackend other",
        &[
            (
                b"web",
                Balance::LeastConnections,
                (true, true, false),
                [None, Some(5), Some(0)],
                0,
            ),
            (
                b"other",
                Balance::First,
                (true, false, false),
                [None, Some(3000), None],
                0,
            ),
        ],
        &[(b"web", Some(60000), false)],
    ),
    (
        b"defaults\nmode http\nlisten web\n\nbind *:80\nserver a 1.2.3.4:5\nbackend other\ndefaults\nglobal",
        &[
            (
                b"web",
                Balance::RoundRobin,
                (false, false, false),
                [None; 3],
                1,
            ),
            (
                b"other",
                Balance::RoundRobin,
                (false, false, false),
                [None; 3],
                0,
            ),
        ],
        &[(b"web", None, false)],
    ),
    // What `examples/web.cfg` says of its proxies and no client of it sees, in fewer lines.
    (
        b"defaults\nmode http\ntimeout client 30s\ntimeout connect 3s\ntimeout server 30s\ntimeout queue 5s\ntimeout check 2s\nbalance roundrobin\noption forwardfor\nfrontend shop\nbind *:80\ndefault_backend api\nbackend api\nbalance leastconn\noption evacuate\nserver api1 10.20.2.11:9000\nbackend pictures\ntimeout server 10s\nserver picture1 10.20.3.11:8000 maxconn 2000\n",
        &[
            (
                b"api",
                Balance::LeastConnections,
                (false, true, true),
                [Some(3000), Some(30000), Some(5000)],
                1,
            ),
            (
                b"pictures",
                Balance::RoundRobin,
                (false, false, true),
                [Some(3000), Some(10000), Some(5000)],
                1,
            ),
        ],
        &[(b"shop", Some(30000), true)],
    ),
];

/// The weight of the first server, or 0.
fn first_weight(backend: &BackendConfig) -> u16 {
    match backend.servers().first() {
        Some(server) => server.settings().weight,
        None => 0,
    }
}

fn is_back(backend: &BackendConfig, wanted: &BackRow) -> bool {
    let (name, balance, flags, limits, weight) = *wanted;
    backend.name().as_bytes() == name
        && backend.balance() == balance
        && (
            backend.all_backups(),
            backend.evacuate(),
            backend.forward_for(),
        ) == flags
        && [
            backend.connect_limit(),
            backend.server_limit(),
            backend.queue_limit(),
        ] == limits
        && first_weight(backend) == weight
}

fn are_backs(backends: &[BackendConfig], wanted: &[BackRow]) -> bool {
    backends.len() == wanted.len()
        && backends
            .iter()
            .zip(wanted)
            .all(|(backend, wanted)| is_back(backend, wanted))
}

fn is_front(frontend: &Frontend, wanted: &FrontRow) -> bool {
    let (name, limit, forward_for) = *wanted;
    frontend.name().as_bytes() == name
        && (frontend.client_limit(), frontend.forward_for()) == (limit, forward_for)
}

fn are_fronts(frontends: &[Frontend], wanted: &[FrontRow]) -> bool {
    frontends.len() == wanted.len()
        && frontends
            .iter()
            .zip(wanted)
            .all(|(frontend, wanted)| is_front(frontend, wanted))
}

#[test]
fn values_of_proxies_and_how_far_defaults_reach(rt: HostRuntime) {
    for (text, backs, fronts) in PROXIES {
        let config = config(&rt, rt.alloc(), *text);
        let is_so = are_backs(config.backends(), *backs) && are_fronts(config.frontends(), *fronts);
        assert!(&rt; is_so, "{text:?}");
    }
}

/// Of a server the limits of its dial, of its queue and of its check, how often it is checked, and by which request line and fields.
type ServerTimes = (
    [Option<u32>; 3],
    u32,
    Option<(&'static [u8], &'static [u8])>,
);

/// Texts, and their first server.
const TIMES: &[(&[u8], ServerTimes)] = &[
    (
        b"backend w\nserver a 1.2.3.4:1",
        ([None, None, Some(2000)], 2000, None),
    ),
    (
        b"backend w\ntimeout connect 3s\nserver a 1.2.3.4:1 inter 5",
        ([Some(3000), Some(3000), Some(5)], 5, None),
    ),
    (
        b"backend w\ntimeout connect 0\ntimeout check 0\nserver a 1.2.3.4:1 inter 0",
        ([None; 3], 0, None),
    ),
    (
        b"backend w\ntimeout connect 1\ntimeout queue 0\nserver a 1.2.3.4:1",
        ([Some(1), Some(0), Some(2000)], 2000, None),
    ),
    (
        b"backend w\ntimeout queue 4\ntimeout check 6\nserver a 1.2.3.4:1",
        ([None, Some(4), Some(6)], 2000, None),
    ),
    (
        b"backend web\nserver a 127.0.0.1:80 check inter 1500us\noption httpchk",
        (
            [None, None, Some(2)],
            2,
            Some((b"OPTIONS / HTTP/1.0\r\n", b"\r\n")),
        ),
    ),
    (
        b"defaults\noption httpchk /x\nbackend web\nserver a localhost:80\noption httpchk GET /up HTTP/1.1",
        (
            [None, None, Some(2000)],
            2000,
            Some((b"GET /up HTTP/1.1\r\n", b"Host: 127.0.0.1:80\r\n\r\n")),
        ),
    ),
    (
        b"defaults\noption httpchk /y\noption httpchk /x\ndefault-server inter 3s\nbackend web\nserver a localhost:80",
        (
            [None, None, Some(3000)],
            3000,
            Some((b"OPTIONS /x HTTP/1.0\r\n", b"\r\n")),
        ),
    ),
    // As `examples/web.cfg` has it.
    (
        b"defaults\ntimeout connect 3s\ntimeout queue 5s\ntimeout check 2s\ndefault-server check inter 2s rise 2 fall 3 maxconn 400\nbackend pages\noption httpchk GET /health HTTP/1.1\nserver page1 10.20.1.11:8080 maxpins 200000",
        (
            [Some(3000), Some(5000), Some(2000)],
            2000,
            Some((
                b"GET /health HTTP/1.1\r\n",
                b"Host: 10.20.1.11:8080\r\n\r\n",
            )),
        ),
    ),
    (
        b"backend api\noption httpchk HEAD /v2/up\nserver api3 10.20.2.13:9000 disabled",
        (
            [None, None, Some(2000)],
            2000,
            Some((b"HEAD /v2/up HTTP/1.0\r\n", b"\r\n")),
        ),
    ),
];

fn is_asked(found: Option<CheckRequest>, wanted: Option<(&[u8], &[u8])>) -> bool {
    match (found, wanted) {
        (Some(found), Some((line, fields))) => found.line == line && found.fields == fields,
        (None, None) => true,
        _ => false,
    }
}

/// Whether the first backend's first server has these times and is checked by this request.
fn has_times(config: &Config, wanted: &ServerTimes) -> bool {
    let Some(backend) = config.backends().first() else {
        return false;
    };
    let Some(server) = backend.servers().first() else {
        return false;
    };
    let (limits, interval, request) = *wanted;
    [
        backend.connect_limit(),
        backend.queue_limit(),
        backend.probe_limit(server),
    ] == limits
        && server.interval() == interval
        && is_asked(server.check_rule().request(), request)
}

#[test]
fn limits_of_times_and_what_a_check_sends(rt: HostRuntime) {
    for (text, wanted) in TIMES {
        let config = config(&rt, rt.alloc(), *text);
        assert!(&rt; has_times(&config, wanted), "{text:?}");
    }
}

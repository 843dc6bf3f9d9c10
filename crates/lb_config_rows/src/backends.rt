use lb_config::{Config, read_config};
use lb_desk_backend::backend_of;
use lb_desk_model::{Backend, BackendServer};
use lb_types::Balance;
use server_state::AdminState::{Maint, Ready};
use server_state::{AdminState, ServerSettings};
use std::alloc::{AllocError, Global};
use std::process::Abort;

/// A server's name, admin state, weight, `maxconn`, `maxpins`, whether it is a backup, and `rise` and `fall` where it is checked.
type ServerRow = (
    &'static [u8],
    AdminState,
    u16,
    u32,
    u32,
    bool,
    Option<(u16, u16)>,
);

/// The balance, whether all backups are usable together, the table's size, `expire` and `nopurge`, and the servers.
type BackendRow = (
    Balance,
    bool,
    Option<(u32, Option<u32>, bool)>,
    &'static [ServerRow],
);

/// Two checked servers of five pins each, by the manual's defaults.
pub(crate) const TWO_SERVERS: &[u8] =
    b"backend web\n  stick-table type string size 10\n  stick on hdr(x-id)\n  server a 127.0.0.1:8001 check maxpins 5\n  server b 127.0.0.1:8002 check maxpins 5\n";

const TWO_SERVERS_ROW: &[BackendRow] = &[(
    Balance::RoundRobin,
    false,
    Some((10, None, false)),
    &[
        (b"a", Ready, 1, 0, 5, false, Some((2, 3))),
        (b"b", Ready, 1, 0, 5, false, Some((2, 3))),
    ],
)];

/// Two servers and two backups, where each line says something else.
const BACKUPS: &[u8] =
    b"backend shop\n  balance first\n  option allbackups\n  default-server weight 7 maxconn 3 rise 4\n  server a 1.2.3.4:1 weight 0 check fall 9\n  server b 1.2.3.4:2 disabled maxconn 0\n  default-server fall 5\n  server c 1.2.3.4:3 backup check maxpins 6\n  server d 1.2.3.4:4 backup weight 256\n  stick-table type ip size 20 nopurge\n";

const BACKUPS_ROW: &[BackendRow] = &[(
    Balance::First,
    true,
    Some((20, None, true)),
    &[
        (b"a", Ready, 0, 3, 20, false, Some((4, 9))),
        (b"b", Maint, 7, 0, 20, false, None),
        (b"c", Ready, 7, 3, 6, true, Some((4, 5))),
        (b"d", Ready, 256, 3, 20, true, None),
    ],
)];

/// A server that is checked, beside a backup that its line disables, by the manual's defaults. Without `maxpins` a server may hold the
/// whole table.
const DISABLED: &[u8] =
    b"backend web\n  stick-table type string size 10\n  stick on hdr(x-id)\n  server a 127.0.0.1:8001 check maxpins 5\n  server b 127.0.0.1:8002 disabled backup\n";

const DISABLED_ROW: &[BackendRow] = &[(
    Balance::RoundRobin,
    false,
    Some((10, None, false)),
    &[
        (b"a", Ready, 1, 0, 5, false, Some((2, 3))),
        (b"b", Maint, 1, 0, 10, true, None),
    ],
)];

/// What `examples/web.cfg` says of tables and servers and no client of it sees, in fewer lines.
const FARM: &[u8] =
    b"defaults\ndefault-server check inter 2s rise 2 fall 3 maxconn 400\nbackend pages\nstick-table type string len 64 size 1m expire 30m\nserver page3 10.20.1.13:8080 maxpins 200000 weight 2\nserver sorry 10.20.1.99:8080 backup\nbackend api\nbalance leastconn\nstick-table type string len 40 size 100k expire 10m nopurge\nserver api3 10.20.2.13:9000 disabled # waits\nbackend pictures\nserver picture1 10.20.3.11:8000 maxconn 2000\nbackend closed\nlisten tools\nstick-table type ip size 4k expire 8h\nserver tools1 10.20.4.11:7000\n";

const FARM_ROWS: &[BackendRow] = &[
    (
        Balance::RoundRobin,
        false,
        Some((1048576, Some(1800000), false)),
        &[
            (b"page3", Ready, 2, 400, 200000, false, Some((2, 3))),
            (b"sorry", Ready, 1, 400, 1048576, true, Some((2, 3))),
        ],
    ),
    (
        Balance::LeastConnections,
        false,
        Some((102400, Some(600000), true)),
        &[(b"api3", Maint, 1, 400, 102400, false, Some((2, 3)))],
    ),
    (
        Balance::RoundRobin,
        false,
        None,
        &[(b"picture1", Ready, 1, 2000, 0, false, Some((2, 3)))],
    ),
    (Balance::RoundRobin, false, None, &[]),
    (
        Balance::RoundRobin,
        false,
        Some((4096, Some(28800000), false)),
        &[(b"tools1", Ready, 1, 400, 4096, false, Some((2, 3)))],
    ),
];

fn counts(settings: ServerSettings) -> Option<(u16, u16)> {
    match settings.check {
        Some(check) => Some((check.rise, check.fall)),
        None => None,
    }
}

fn is_server(server: &BackendServer, wanted: &ServerRow) -> bool {
    let (name, admin, weight, max_connections, max_pins, backup, check) = *wanted;
    let settings = server.settings;
    server.name.as_bytes() == name
        && (settings.admin, settings.weight, settings.backup) == (admin, weight, backup)
        && (settings.max_connections, settings.max_pins) == (max_connections, max_pins)
        && counts(settings) == check
}

fn table_row(backend: &Backend) -> Option<(u32, Option<u32>, bool)> {
    match backend.table() {
        Some(table) => Some((table.size, table.expire, table.no_purge)),
        None => None,
    }
}

fn is_backend(backend: &Backend, wanted: &BackendRow) -> bool {
    let (balance, all_backups, table, servers) = *wanted;
    (backend.balance(), backend.all_backups()) == (balance, all_backups)
        && table_row(backend) == table
        && backend.servers().len() == servers.len()
        && backend
            .servers()
            .iter()
            .zip(servers)
            .all(|(server, wanted)| is_server(server, wanted))
}

pub(crate) fn config(rt: &impl Abort, alloc: Global, text: &[u8]) -> Config {
    match read_config(alloc, text) {
        Ok(config) => config,
        Err(_) => panic!(rt; "a fault in {text:?}"),
    }
}

/// Whether the configuration's backends open as these rows say.
fn are_backends(alloc: Global, config: &Config, wanted: &[BackendRow]) -> Result<bool, AllocError> {
    if config.backends().len() != wanted.len() {
        return Ok(false);
    }
    for (configured, wanted) in config.backends().iter().zip(wanted.iter()) {
        let backend = backend_of(alloc, configured)?;
        if !is_backend(&backend, wanted) {
            return Ok(false);
        }
    }
    Ok(true)
}

/// Texts, and their backends.
const TEXTS: &[(&[u8], &[BackendRow])] = &[
    (TWO_SERVERS, TWO_SERVERS_ROW),
    (BACKUPS, BACKUPS_ROW),
    (DISABLED, DISABLED_ROW),
    (FARM, FARM_ROWS),
    (
        b"backend web\nserver a 1.2.3.4:1\ndefault-server weight 5 check\nserver b 1.2.3.4:1\ndefault-server rise 4\nserver c 1.2.3.4:1 weight 9 fall 7",
        &[(
            Balance::RoundRobin,
            false,
            None,
            &[
                (b"a", Ready, 1, 0, 0, false, None),
                (b"b", Ready, 5, 0, 0, false, Some((2, 3))),
                (b"c", Ready, 9, 0, 0, false, Some((4, 7))),
            ],
        )],
    ),
    (
        b"defaults\ndefault-server weight 3 rise 5 check\nbackend web\nserver a 1.2.3.4:1\ndefault-server weight 6\nserver b 1.2.3.4:1\nserver c 1.2.3.4:1 rise 1",
        &[(
            Balance::RoundRobin,
            false,
            None,
            &[
                (b"a", Ready, 3, 0, 0, false, Some((5, 3))),
                (b"b", Ready, 6, 0, 0, false, Some((5, 3))),
                (b"c", Ready, 6, 0, 0, false, Some((1, 3))),
            ],
        )],
    ),
    // A `default-server` after the servers applies to none.
    (
        b"backend web\nserver a 1.2.3.4:1\nserver b 1.2.3.4:1 weight 0\nserver c 1.2.3.4:1\ndefault-server weight 5",
        &[(
            Balance::RoundRobin,
            false,
            None,
            &[
                (b"a", Ready, 1, 0, 0, false, None),
                (b"b", Ready, 0, 0, 0, false, None),
                (b"c", Ready, 1, 0, 0, false, None),
            ],
        )],
    ),
];

#[test]
fn each_backend_opens_as_its_text_says(rt: HostRuntime) {
    for (text, wanted) in TEXTS {
        let config = config(&rt, rt.alloc(), *text);
        let is_so = matches!(are_backends(rt.alloc(), &config, *wanted), Ok(true));
        assert!(&rt; is_so, "{text:?}");
    }
}

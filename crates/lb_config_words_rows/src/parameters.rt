use crate::texts::words_of;
use lb_acl::TableType;
use lb_config_arguments::{LineError, Words};
use lb_config_parameters::{ServerOptions, read_default_server, read_server, read_stick_table};
use std::alloc::Global;
use std::net::Ipv4Addr;
use std::test::Fail;

/// The options of the words after `server` or `default-server`.
fn options(alloc: Global, is_default: bool, text: &str) -> Result<ServerOptions, LineError> {
    let words = words_of(alloc, text)?;
    let mut words = Words::new(alloc, &words, None);
    if is_default {
        return read_default_server(&mut words);
    }
    let server = read_server(&mut words)?;
    Ok(server.options)
}

/// A server with all options.
const LONG: &str =
    "b localhost:8002 check inter 1500us rise 1 fall 1000 weight 256 maxconn 0 maxpins 5 backup disabled weight 7";

/// Whether it is a default, the words, and what they say: whether a server is checked, a backup and disabled, its `inter`, `rise` and
/// `fall`, and its weight, `maxconn` and `maxpins`. What isn't said is none, and the last weight counts.
const OPTIONS: &[(
    bool,
    &str,
    (bool, bool, bool),
    (Option<u32>, Option<u16>, Option<u16>),
    (Option<u16>, Option<u32>, Option<u32>),
)] = &[
    (
        false,
        LONG,
        (true, true, true),
        (Some(2), Some(1), Some(1000)),
        (Some(7), Some(0), Some(5)),
    ),
    (
        true,
        "rise 4",
        (false, false, false),
        (None, Some(4), None),
        (None, None, None),
    ),
];

#[test]
fn options_of_servers(rt: HostRuntime) -> Result<(), Fail> {
    for (is_default, text, flags, checks, limits) in OPTIONS {
        let read = options(rt.alloc(), *is_default, *text)?;
        let is_so = (read.is_checked, read.is_backup, read.is_disabled) == *flags
            && (read.interval, read.rise, read.fall) == *checks
            && (read.weight, read.max_connections, read.max_pins) == *limits;
        assert!(rt; is_so, "{text}");
    }
    let words = words_of(rt.alloc(), LONG)?;
    let server = read_server(&mut Words::new(rt.alloc(), &words, None))?;
    let endpoint = (server.endpoint.address, server.endpoint.port);
    let is_so = server.name.as_bytes() == b"b".as_slice()
        && endpoint == (Ipv4Addr::new(127, 0, 0, 1), 8002);
    assert!(rt; is_so);
    Ok(())
}

/// The bytes of a key, or 0 for an address.
fn key_bytes(kind: TableType) -> usize {
    match kind {
        TableType::Text(len) => len.get(),
        TableType::Ip => 0,
    }
}

/// Parameters of tables, and what they say: the bytes of a key, the size, the expiry and whether pins stay.
const TABLES: &[(&str, (usize, u32, Option<u32>, bool))] = &[
    (
        "nopurge size 1k expire 10s type string",
        (32, 1024, Some(10000), true),
    ),
    (
        "type string len 2 size 1 type ip size 16m",
        (0, 16777216, None, false),
    ),
    ("type string len 1024 size 1", (1024, 1, None, false)),
];

#[test]
fn parameters_of_tables_stand_in_any_order_and_the_last_counts(
    rt: HostRuntime,
) -> Result<(), Fail> {
    for (text, wanted) in TABLES {
        let words = words_of(rt.alloc(), *text)?;
        let read = read_stick_table(&mut Words::new(rt.alloc(), &words, None))?;
        let settings = read.settings();
        let found = (
            key_bytes(read.kind()),
            settings.size,
            settings.expire,
            settings.no_purge,
        );
        assert_eq!(rt; found, *wanted, "{text}");
    }
    Ok(())
}

use crate::texts::words_of;
use lb_acl::{KeySample, Version};
use lb_config_lines::{Section, Setting, SocketAddress, Statement, Timeout, read_line};
use lb_types::Balance;
use std::alloc::Global;
use std::process::Abort;
use std::test::Fail;

/// What the setting of a line is: one that `is_plain` knows by its number; a check by this method, this URI and this version; or a
/// command socket at this port, or at a path, with words after its address or without.
#[derive(Clone, Copy)]
enum Wanted {
    Plain(u8),
    Check(&'static str, &'static str, Version),
    Socket(Option<u16>, bool),
}

/// Whether the setting is that of this number below.
fn is_plain(number: u8, setting: &Setting) -> bool {
    match (number, setting) {
        (0, Setting::Relays(7)) => true,
        (1, Setting::Tries(1000)) => true,
        (2, Setting::Journal(2)) => true,
        (3, Setting::Timeout(Timeout::Queue, 2)) => true,
        (4, Setting::Timeout(Timeout::Client, 60000)) => true,
        (5, Setting::Balance(Balance::First)) => true,
        (6, Setting::ForwardFor) => true,
        (7, Setting::StickOn(KeySample::Cookie(_))) => true,
        (8, Setting::Bind(at)) => at.port == 8080,
        (9, Setting::DefaultBackend(name)) => name.as_bytes() == b"web".as_slice(),
        _ => false,
    }
}

/// Whether the setting is a check by this method, this URI and this version.
fn is_check(setting: &Setting, method: &str, uri: &str, version: Version) -> bool {
    match setting {
        Setting::HttpCheck(check) => {
            check.method.as_bytes() == method.as_bytes()
                && check.uri.as_bytes() == uri.as_bytes()
                && check.version == version
        }
        _ => false,
    }
}

/// Whether the setting is a command socket at this port, or at a path, and whether words follow its address.
fn is_socket(setting: &Setting, port: Option<u16>, has_more: bool) -> bool {
    let Setting::StatsSocket(socket) = setting else {
        return false;
    };
    let found = match &socket.address {
        SocketAddress::Path(_) => None,
        SocketAddress::Tcp(endpoint) => Some(endpoint.port),
    };
    found == port && socket.has_more == has_more
}

fn is_wanted(setting: &Setting, wanted: Wanted) -> bool {
    match wanted {
        Wanted::Plain(number) => is_plain(number, setting),
        Wanted::Check(method, uri, version) => is_check(setting, method, uri, version),
        Wanted::Socket(port, has_more) => is_socket(setting, port, has_more),
    }
}

/// Lines with their settings.
const SETTINGS: &[(Section, &str, Wanted)] = &[
    (Section::Global, "tune.relays 007", Wanted::Plain(0)),
    (Section::Global, "tune.tries 1000", Wanted::Plain(1)),
    (Section::Global, "tune.journal 2", Wanted::Plain(2)),
    (Section::Defaults, "timeout queue 1500us", Wanted::Plain(3)),
    (Section::Frontend, "timeout client 1m", Wanted::Plain(4)),
    (Section::Backend, "balance first", Wanted::Plain(5)),
    (Section::Listen, "option forwardfor", Wanted::Plain(6)),
    (Section::Backend, "stick on req.cook(s)", Wanted::Plain(7)),
    (Section::Frontend, "bind :8080", Wanted::Plain(8)),
    (Section::Defaults, "default_backend web", Wanted::Plain(9)),
    (
        Section::Backend,
        "option httpchk",
        Wanted::Check("OPTIONS", "/", Version::Http10),
    ),
    (
        Section::Backend,
        "option httpchk /up",
        Wanted::Check("OPTIONS", "/up", Version::Http10),
    ),
    (
        Section::Backend,
        "option httpchk HEAD /up",
        Wanted::Check("HEAD", "/up", Version::Http10),
    ),
    (
        Section::Backend,
        "option httpchk GET /up HTTP/1.1",
        Wanted::Check("GET", "/up", Version::Http11),
    ),
    (
        Section::Global,
        "stats socket /run/lb.sock",
        Wanted::Socket(None, false),
    ),
    (
        Section::Global,
        "stats socket /run/lb.sock mode 600",
        Wanted::Socket(None, true),
    ),
    (
        Section::Global,
        "stats socket ipv4@127.0.0.1:9999 level admin",
        Wanted::Socket(Some(9999), true),
    ),
    (
        Section::Global,
        "stats socket *:1",
        Wanted::Socket(Some(1), false),
    ),
];

/// The line has this setting.
fn expect_setting(
    rt: &impl Abort,
    alloc: Global,
    section: Section,
    line: &str,
    wanted: Wanted,
) -> Result<(), Fail> {
    let words = words_of(alloc, line)?;
    let Statement::Setting(setting) = read_line(alloc, Some(section), &words, None)? else {
        return Err(Fail::new("no setting"));
    };
    assert!(rt; is_wanted(&setting, wanted), "{line}");
    Ok(())
}

#[test]
fn settings_are_those_of_their_lines(rt: HostRuntime) -> Result<(), Fail> {
    for (section, line, wanted) in SETTINGS {
        expect_setting(&rt, rt.alloc(), *section, *line, *wanted)?;
    }
    Ok(())
}

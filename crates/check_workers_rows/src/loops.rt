ghost use Rattle.std.specs.Prelude.{◌<◌};

use check_workers_loop::{Flipped, Flips, check_until_stopped, flip_line};
use check_workers_round::{Check, ScriptedProbes, Turn};
use check_workers_rule::{CheckRule, RequestLine};
use check_workers_system::{ProbeTarget, SocketProbes};
use crossbeam_channel::{Sender, bounded};
use http_relay_system::SystemClock;
use lb_acl::Version;
use lb_desk_model::Event;
use lb_desk_ports::{Asked, Filed, Pinning, PortScript, Refused, ScriptedPort, Shut};
use lb_types::{Moment, ServerId};
use rise_fall::Flip;
use server_state::Checked;
use std::net::{Ipv4Addr, TcpListener};
use std::test::Fail;
use std::thread;
use std::thread::join;
use std::time::{Duration, Instant};

/// Counts what is reported to it, and stops the loop once that is as much as it wants.
#[derive(Drop)]
struct Stopper {
    to: Option<Sender<()>>,
    wanted: u64,
    ups: u64,
    downs: u64,
}

impl<R> Flips<R> for Stopper {
    ghost use Rattle.std.specs.Prelude.{None};

    ghost told = { λ stopper. None };

    fn tell(&mut self, _rt: &R, flip: Flipped) {
        if flip.is_up {
            self.ups = self.ups.saturating_add(1);
        } else {
            self.downs = self.downs.saturating_add(1);
        }
        if self.ups.saturating_add(self.downs) >= self.wanted {
            self.to = None;
        }
    }
}

fn check(server: u8, interval: u32) -> Check
    requires { server < 64 }
{
    Check {
        server: ServerId::new(server),
        interval,
        due: Moment::from_millis(0),
    }
}

fn script(filed: Filed, refusing: Option<(u64, Refused)>) -> PortScript<'static> {
    PortScript {
        asked: Asked::NoServer,
        set: Pinning::NoTable,
        openings: &[],
        shut: Shut::Closed,
        filed,
        refusing,
    }
}

const WENT_UP: Filed = Filed::Checked(Checked::Took(Flip::WentUp));

const WENT_DOWN: Filed = Filed::Checked(Checked::Took(Flip::WentDown));

// What each result does, the one that is refused, the flips after which it stops, the entries then, and how many flips were up and
// down.
const LOOPS: &[(Filed, Option<(u64, Refused)>, u64, usize, (u64, u64))] = &[
    (WENT_UP, None, 1, 1, (1, 0)),
    (WENT_DOWN, None, 6, 6, (0, 6)),
    (WENT_UP, Some((2, Refused::Worn)), 5, 5, (5, 0)),
];

// Each result that makes a server go up or down is reported, one that is refused is not, and the loop goes on until it is stopped.
#[test]
fn flips_are_told_until_a_stop(rt: HostRuntime) -> Result<(), Fail> {
    for (filed, refusing, wanted, entries, flips) in LOOPS {
        let script = script(*filed, *refusing);
        let mut port = ScriptedPort::new(rt.alloc(), &script);
        let mut clock = SystemClock::new(Instant::now(&rt)?);
        let turns = [
            Turn::Ends(ServerId::new(5), true),
            Turn::Ends(ServerId::new(3), false),
        ];
        let mut probes = ScriptedProbes::new(rt.alloc(), &turns);
        let (to, stop) = bounded(rt.alloc(), 1)?;
        let mut stopper = Stopper {
            to: Some(to),
            wanted: *wanted,
            ups: 0,
            downs: 0,
        };
        let mut checks = [check(5, 10), check(3, 0)];
        check_until_stopped(
            &rt,
            &mut probes,
            &mut clock,
            &mut port,
            &mut stopper,
            &mut checks,
            &stop,
        );
        let first = port.entries().first().map(|entry| entry.event
            == Event::Check(ServerId::new(5), true));
        assert!(rt;
            port.entries().len() == *entries
                && (stopper.ups, stopper.downs) == *flips
                && first == Some(true),
            "{filed:?}"
        );
    }
    Ok(())
}

// A stop is seen where no check is due for long, whether the channel closes or gives something.
#[test]
fn a_stop_is_seen_while_nothing_is_due(rt: HostRuntime) -> Result<(), Fail> {
    for gives in [true, false] {
        let script = script(Filed::NotChecked, None);
        let mut port = ScriptedPort::new(rt.alloc(), &script);
        let mut clock = SystemClock::new(Instant::now(&rt)?);
        let mut probes = ScriptedProbes::new(rt.alloc(), &[]);
        let (to, stop) = bounded(rt.alloc(), 1)?;
        let mut stopper = Stopper {
            to: None,
            wanted: 1,
            ups: 0,
            downs: 0,
        };
        let begun = Instant::now(&rt)?;
        let stops = || {
            thread::sleep(&rt, Duration::from_millis(30));
            if gives {
                return to.send(&rt, ()).is_ok();
            }
            drop(to);
            true
        };
        join(&rt, stops, || {
            check_until_stopped(
                &rt,
                &mut probes,
                &mut clock,
                &mut port,
                &mut stopper,
                &mut [check(1, 60_000)],
                &stop,
            )
        });
        let taken = begun.elapsed(&rt)?;
        let (least, most) = (Duration::from_millis(30), Duration::from_millis(5000));
        assert!(rt;
            port.entries().len() == 1 && least <= taken && taken < most,
            "{gives}, {taken:?}"
        );
    }
    Ok(())
}

// A stop ends the loop while a probe is under way that never ends, and that files nothing.
#[test]
fn a_stop_drops_a_probe_that_is_under_way(rt: HostRuntime) -> Result<(), Fail> {
    let listener = TcpListener::bind(&rt, "127.0.0.1:0")?;
    let port = listener.local_addr()?.port();
    let line = RequestLine::new(rt.alloc(), b"GET", b"/", Version::Http10)?;
    let rule = CheckRule::http(rt.alloc(), &line, Ipv4Addr::LOCALHOST, port)?;
    let targets = [Some(ProbeTarget {
        address: Ipv4Addr::LOCALHOST,
        port,
        rule: &rule,
        limit: 60_000,
    })];
    let mut probes = SocketProbes::new(&rt, rt.alloc(), &targets)?;
    let script = script(WENT_DOWN, None);
    let mut backend = ScriptedPort::new(rt.alloc(), &script);
    let mut clock = SystemClock::new(Instant::now(&rt)?);
    let (to, stop) = bounded(rt.alloc(), 1)?;
    let mut stopper = Stopper {
        to: None,
        wanted: 1,
        ups: 0,
        downs: 0,
    };
    let begun = Instant::now(&rt)?;
    let stops = || {
        thread::sleep(&rt, Duration::from_millis(30));
        drop(to);
        true
    };
    join(&rt, stops, || {
        check_until_stopped(
            &rt,
            &mut probes,
            &mut clock,
            &mut backend,
            &mut stopper,
            &mut [check(0, 1000)],
            &stop,
        )
    });
    let taken = begun.elapsed(&rt)?;
    assert!(rt;
        backend.entries().is_empty() && taken < Duration::from_millis(5000),
        "{taken:?}"
    );
    Ok(())
}

// Without a check the loop is over at once, though nothing stops it.
#[test]
fn without_checks_it_is_over(rt: HostRuntime) -> Result<(), Fail> {
    let script = script(WENT_UP, None);
    let mut port = ScriptedPort::new(rt.alloc(), &script);
    let mut clock = SystemClock::new(Instant::now(&rt)?);
    let mut probes = ScriptedProbes::new(rt.alloc(), &[]);
    let (to, stop) = bounded(rt.alloc(), 1)?;
    let mut stopper = Stopper {
        to: Some(to),
        wanted: 1,
        ups: 0,
        downs: 0,
    };
    check_until_stopped(
        &rt,
        &mut probes,
        &mut clock,
        &mut port,
        &mut stopper,
        &mut [],
        &stop,
    );
    assert!(rt; port.entries().is_empty() && stopper.ups == 0 && stopper.to.is_some());
    Ok(())
}

// A backend, a server, whether that is up, and the line.
const LINES: &[(&[u8], &[u8], bool, &[u8])] = &[
    (b"web", b"s1", false, b"Server web/s1 is DOWN\n"),
    (b"api.v2", b"a", true, b"Server api.v2/a is UP\n"),
];

// Lines say which server went up or down.
#[test]
fn lines_name_the_server(rt: HostRuntime) -> Result<(), Fail> {
    for (backend, server, is_up, line) in LINES {
        let text = flip_line(rt.alloc(), backend, server, *is_up)?;
        assert!(rt; text.as_slice() == *line, "{line:?}");
    }
    Ok(())
}

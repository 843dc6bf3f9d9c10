ghost use Rattle.std.specs.Prelude.{◌<◌};

use check_workers_round::{Beginning, Check, Round, ScriptedProbes, Turn, make_round};
use lb_desk_model::Event;
use lb_desk_ports::{
    Asked, Clock, Filed, Pinning, PortScript, Refused, ScriptedClock, ScriptedPort, Shut,
};
use lb_types::{Moment, ServerId};
use std::alloc::{AllocError, Global};
use std::test::Fail;

/// A check that was made: its moment, its server, and whether that is well.
type Made = (u64, u8, bool);

// Two servers, checked every 200 and every 300 ms from 0 on. Where both are due the first in the list is checked first.
const MADE: &[Made] = &[
    (0, 5, true),
    (0, 3, false),
    (200, 5, false),
    (300, 3, true),
    (400, 5, true),
    (600, 5, true),
    (600, 3, false),
    (800, 5, false),
    (900, 3, true),
];

fn check(server: u8, interval: u32) -> Check
    requires { server < 64 }
{
    Check {
        server: ServerId::new(server),
        interval,
        due: Moment::from_millis(0),
    }
}

fn script(refusing: Option<(u64, Refused)>) -> PortScript<'static> {
    PortScript {
        asked: Asked::NoServer,
        set: Pinning::NoTable,
        openings: &[],
        shut: Shut::Closed,
        filed: Filed::NotChecked,
        refusing,
    }
}

// The probes of these checks, each of which ends in the round that began it.
fn turns(alloc: Global, made: &[Made]) -> Result<Vec<Turn>, AllocError> {
    let mut turns = Vec::new(alloc);
    for (_, server, ok) in made {
        turns.push(Turn::Ends(ServerId::new(*server % 64), *ok))?;
    }
    Ok(turns)
}

// Whether the next check that is made is this one, the clock going on while none is due.
fn comes_next(
    rt: &HostRuntime,
    probes: &mut ScriptedProbes<'_>,
    clock: &mut ScriptedClock,
    port: &mut ScriptedPort<'_>,
    checks: &mut [Check],
    expected: &Made,
) -> bool {
    for _ in 0..2 {
        let Round {
            begun,
            beginning,
            made,
        } = make_round(rt, probes, clock, port, checks);
        if let Some(made) = made {
            let made = (begun.as_millis(), made.server.index() as u8, made.ok);
            return made == *expected;
        }
        if let Beginning::NotDue(wait) = beginning {
            clock.pause(rt, wait);
        }
    }
    false
}

// Each server is checked at its own interval, and each result is filed under its server.
#[test]
fn servers_are_checked_in_turn(rt: HostRuntime) -> Result<(), Fail> {
    let script = script(None);
    let mut port = ScriptedPort::new(rt.alloc(), &script);
    let mut clock = ScriptedClock::new(rt.alloc(), 0);
    let turns = turns(rt.alloc(), MADE)?;
    let mut probes = ScriptedProbes::new(rt.alloc(), &turns);
    let mut checks = [check(5, 200), check(3, 300)];
    for expected in MADE {
        let is_next = comes_next(
            &rt,
            &mut probes,
            &mut clock,
            &mut port,
            &mut checks,
            expected,
        );
        let (_, server, ok) = *expected;
        let is_filed = match port.entries().last() {
            Some(entry) => entry.event == Event::Check(ServerId::new(server.min(63)), ok),
            None => false,
        };
        assert!(rt; is_next && is_filed, "{expected:?}");
    }
    assert!(rt; port.entries().len() == MADE.len());
    Ok(())
}

// A result that the backend refuses is dropped, and its server is checked again in time.
#[test]
fn a_refused_result_is_dropped(rt: HostRuntime) -> Result<(), Fail> {
    let script = script(Some((1, Refused::Memory)));
    let mut port = ScriptedPort::new(rt.alloc(), &script);
    let mut clock = ScriptedClock::new(rt.alloc(), 0);
    let turns = turns(rt.alloc(), MADE)?;
    let mut probes = ScriptedProbes::new(rt.alloc(), &turns);
    let mut checks = [check(5, 200), check(3, 300)];
    for expected in MADE {
        let is_next = comes_next(
            &rt,
            &mut probes,
            &mut clock,
            &mut port,
            &mut checks,
            expected,
        );
        assert!(rt; is_next, "{expected:?}");
    }
    assert!(rt; port.entries().len() == 8 && port.refusals() == 1);
    Ok(())
}

/// What a round did: its moment, the server whose probe it began, how long nothing is due, if none was begun, and the check that was made.
type Did = (u64, Option<u8>, u64, Option<(u8, bool)>);

// A dark server, whose probe takes longer than its interval, beside a well one. Its next probe begins as soon as the last one has ended.
const OVERLAPPING: &[Did] = &[
    (0, Some(5), 0, None),
    (0, Some(3), 0, Some((3, true))),
    (0, None, 300, None),
    (300, Some(3), 0, Some((3, true))),
    (300, None, 300, Some((5, false))),
    (300, Some(5), 0, None),
    (300, None, 300, None),
    (600, Some(3), 0, None),
    (600, None, u64::MAX, Some((5, true))),
    (600, Some(5), 0, Some((3, false))),
];

fn turn_of(did: &Did) -> Turn {
    match did {
        (_, _, _, Some((server, ok))) => Turn::Ends(ServerId::new(*server % 64), *ok),
        _ => Turn::Waits,
    }
}

fn did(round: &Round) -> Did {
    let made = round.made.map(|made| (made.server.index() as u8, made.ok));
    let (begun, wait) = match round.beginning {
        Beginning::Begun(server) => (Some(server.index() as u8), 0),
        Beginning::NotDue(wait) => (None, wait),
        Beginning::NoneFree => (None, u64::MAX),
    };
    (round.begun.as_millis(), begun, wait, made)
}

// A server that doesn't answer delays no other one's checks, and is never probed twice at once.
#[test]
fn probes_of_several_servers_overlap(rt: HostRuntime) -> Result<(), Fail> {
    let script = script(None);
    let mut port = ScriptedPort::new(rt.alloc(), &script);
    let mut clock = ScriptedClock::new(rt.alloc(), 0);
    let mut turns = Vec::new(rt.alloc());
    for expected in OVERLAPPING {
        turns.push(turn_of(expected))?;
    }
    let mut probes = ScriptedProbes::new(rt.alloc(), &turns);
    let mut checks = [check(5, 200), check(3, 300)];
    for expected in OVERLAPPING {
        let round = make_round(&rt, &mut probes, &mut clock, &mut port, &mut checks);
        assert!(rt; did(&round) == *expected, "{expected:?}");
        if let (Beginning::NotDue(wait), None) = (round.beginning, round.made) {
            clock.pause(&rt, wait);
        }
    }
    assert!(rt; port.entries().len() == 5 && probes.ended().map(|ended| ended.len()) == Some(5));
    Ok(())
}

// Without a check nothing is done; the probes after the last turn fail.
#[test]
fn without_checks_nothing_is_probed(rt: HostRuntime) -> Result<(), Fail> {
    let script = script(None);
    let mut port = ScriptedPort::new(rt.alloc(), &script);
    let mut clock = ScriptedClock::new(rt.alloc(), 7);
    let mut probes = ScriptedProbes::new(rt.alloc(), &[]);
    let round = make_round(&rt, &mut probes, &mut clock, &mut port, &mut []);
    assert!(rt; did(&round) == (7, None, u64::MAX, None));
    let mut checks = [check(2, 1)];
    let round = make_round(&rt, &mut probes, &mut clock, &mut port, &mut checks);
    assert!(rt;
        did(&round) == (7, Some(2), 0, Some((2, false)))
            && probes.begun().map(|begun| begun.len()) == Some(1)
    );
    Ok(())
}

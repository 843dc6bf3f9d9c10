//! Calls of a seat as a port, as a mover and as a steer.
ghost use Rattle.std.specs.Prelude.{◌≡◌};

use crate::desks::{JOURNAL, shared};
use crate::farms::{A, B, pin, request, server, two_servers};
use crate::kinds::{Kind, are};
use lb_desk_evacuate::{Evacuation, evacuate};
use lb_desk_model::{Backend, Entry, PinnedAs, Reply, ServedAs};
use lb_desk_ports::{Asked, Filed, OpenGate, Opening, Pinning, Port, Refused, Shut};
use lb_desk_seat::Seat;
use lb_desk_shared::{Naming, SharedDesk};
use lb_desk_steer::Steer;
use lb_desk_tie::{Opened, Pass};
use pin_set::Score;
use rise_fall::Flip;
use server_state::{AdminState, Change, Checked, Setting};
use std::alloc::Global;
use std::hash::{BuildHasher, BuildHasherDefault, FoldHasher};
use std::marker::Brand;
use std::process::Abort;
use std::sync::Wait;
use std::test::Fail;
use std::time::Clock;

/// What the journal has after the calls below.
const ENTRIES: &[Kind] = &[
    // as a port
    Kind::Expire,
    Kind::Made,
    Kind::Expire,
    Kind::Kept,
    Kind::SetKept,
    Kind::Open,
    Kind::Open,
    Kind::Close,
    Kind::Check,
    Kind::Check,
    // as a mover and a steer
    Kind::Command,
    Kind::Snapshot,
    Kind::Installed,
    Kind::Expire,
    Kind::Kept,
];

/// There is one pin, it moves, and that costs 1.
const ONE_MOVED: Score = Score {
    pins: 1,
    unplaced: 0,
    moved: 1,
    cost: 1,
};

#[test]
fn a_seat_is_a_port_a_mover_and_a_steer(rt: HostRuntime) -> Result<(), Fail> {
    let backend = two_servers(rt.alloc())?;
    let opened = Opened::new(rt.alloc())?;
    let hasher = BuildHasherDefault::<FoldHasher>::new();
    calls::<_, Brand, _>(&rt, rt.alloc(), opened, &backend, hasher)
}

fn calls<S: BuildHasher + Drop, N: Naming, R: Wait + Clock + Abort>(
    rt: &R,
    alloc: Global,
    opened: Opened<Entry>,
    backend: &Backend,
    hasher: S,
) -> Result<(), Fail>
    requires table { opened ≡ N.table_of 0 }
    requires opening { backend.now ≡ N.opening 0 }
    requires size { N.journal_size 0 ≡ JOURNAL }
{
    let desk = shared::<S, N>(alloc, opened, backend, hasher)?;
    let pass = take_a_seat(rt, alloc, &desk)?;
    // The desk can be closed with the seat's pass.
    assert!(rt; pass.keeper() == desk.number());
    let Ok(closing) = desk.close(vec![in alloc; pass]?) else {
        return Err(Fail::new("the desk stays open"));
    };
    assert!(rt; closing.rising);
    Ok(())
}

/// Makes all calls at one seat, and gives its pass back.
fn take_a_seat<S: BuildHasher, N: Naming, R: Wait + Clock + Abort>(
    rt: &R,
    alloc: Global,
    desk: &SharedDesk<S, N>,
) -> Result<Pass<Entry, N>, Fail> {
    let mut seat = Seat::new(alloc, desk, desk.enter(rt));
    serve(rt, alloc, &mut seat)?;
    connect(rt, &mut seat)?;
    check(rt, &mut seat)?;
    steer(rt, alloc, &mut seat)?;
    let journal = seat.journal(rt, alloc)?;
    assert_eq!(rt; journal.first, 0);
    are(rt, &journal.entries, ENTRIES);
    assert_eq!(rt; seat.refusals(), 0);
    assert_eq!(rt; seat.planned_now(), 0);
    Ok(seat.into_pass())
}

/// The first server of the round is a, where the pin stays.
fn serve<R: Abort, P: Port<R>>(rt: &R, alloc: Global, port: &mut P) -> Result<(), Fail> {
    let made = port.ask(rt, request(alloc, 5, "k1")?)?;
    assert_eq!(rt; made, Asked::Served(server(A), ServedAs::Made));
    let kept = port.ask(rt, request(alloc, 6, "k1")?)?;
    assert_eq!(rt; kept, Asked::Served(server(A), ServedAs::Kept));
    let stands = port.set(rt, pin(alloc, 6, "k1", A)?)?;
    assert_eq!(rt; stands, Pinning::Pinned(PinnedAs::Kept));
    Ok(())
}

/// Server b takes one connection.
fn connect<R: Abort, P: Port<R>>(rt: &R, port: &mut P) -> Result<(), Fail> {
    let Opening::Opened(slot) = port.open(rt, server(B))? else {
        return Err(Fail::new("b takes no connection"));
    };
    let full = is_full(rt, port);
    assert_eq!(rt; port.shut(rt, slot)?, Shut::Closed);
    assert!(rt; full?);
    Ok(())
}

/// Whether b takes no connection more. One that it takes ends at once.
fn is_full<R, P: Port<R>>(rt: &R, port: &mut P) -> Result<bool, Refused> {
    match port.open(rt, server(B))? {
        Opening::Opened(slot) => {
            port.shut(rt, slot)?;
            Ok(false)
        }
        Opening::Full => Ok(true),
        Opening::NotServing => Ok(false),
    }
}

/// Server b isn't checked.
fn check<R: Abort, P: Port<R>>(rt: &R, port: &mut P) -> Result<(), Fail> {
    let checked = port.check(rt, server(A), true)?;
    assert_eq!(rt; checked, Filed::Checked(Checked::Took(Flip::Stays)));
    assert_eq!(rt; port.check(rt, server(B), true)?, Filed::NotChecked);
    Ok(())
}

/// Server a goes into maintenance, and its pin to b, by a plan that nobody comes in front of.
fn steer<R: Abort, P: Port<R> + Steer<R>>(rt: &R, alloc: Global, seat: &mut P) -> Result<(), Fail> {
    let maintenance = Change {
        server: server(A),
        setting: Setting::Admin(AdminState::Maint),
    };
    assert_eq!(rt; seat.command(rt, maintenance)?, Reply::Done);
    let evacuation = evacuate(rt, alloc, seat, &OpenGate, 2)?;
    assert_eq!(rt; evacuation, Evacuation::Done(ONE_MOVED));
    let kept = seat.ask(rt, request(alloc, 7, "k1")?)?;
    assert_eq!(rt; kept, Asked::Served(server(B), ServedAs::Kept));
    assert_eq!(rt; seat.rows(rt, alloc)?.len(), 1);
    Ok(())
}

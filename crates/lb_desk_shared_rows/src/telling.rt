//! A planner that is notified, while traffic goes on.
ghost use Rattle.std.specs.Prelude.{◌≡◌};

use crate::desks::{JOURNAL, shared};
use crate::farms::{A, request, server, two_servers};
use crate::kinds::{Kind, are};
use lb_desk_model::{Backend, Entry};
use lb_desk_planner::{Bell, plan_when_told};
use lb_desk_ports::{Asked, Gate, Point, Port, Refused};
use lb_desk_seat::Seat;
use lb_desk_shared::{Naming, SharedDesk};
use lb_desk_steer::Steer;
use lb_desk_tie::Opened;
use server_state::{AdminState, Change, Setting};
use std::alloc::Global;
use std::hash::{BuildHasher, BuildHasherDefault, FoldHasher};
use std::marker::Brand;
use std::process::Abort;
use std::sync::Wait;
use std::sync::atomic::{AtomicBool, Ordering};
use std::test::Fail;
use std::time::Clock;

/// A planner that may make so many plans, what the journal has then, and how often it planned while all others waited.
#[derive(Clone, Copy, Debug)]
struct Row {
    tries: u32,
    kinds: &'static [Kind],
    planned_now: u64,
}

/// All others wait, and nobody is let in.
const ALONE: &[Kind] = &[
    Kind::Expire,
    Kind::Made,
    Kind::Command,
    Kind::Snapshot,
    Kind::Installed,
];

/// A request for a new pin comes in between the first sheet and its plan.
const LET_IN: &[Kind] = &[
    Kind::Expire,
    Kind::Made,
    Kind::Command,
    Kind::Snapshot,
    Kind::Expire,
    Kind::Made,
    Kind::Stale,
    Kind::Snapshot,
    Kind::Installed,
];

const ROWS: &[Row] = &[
    Row {
        tries: 1,
        kinds: ALONE,
        planned_now: 1,
    },
    Row {
        tries: 2,
        kinds: LET_IN,
        planned_now: 1,
    },
    Row {
        tries: 3,
        kinds: LET_IN,
        planned_now: 0,
    },
];

/// Lets a request for a new pin in, once, where a plan is made and not installed yet.
#[derive(Drop)]
struct LetsOneIn<'a, S: BuildHasher, N: Naming> {
    alloc: Global,
    desk: &'a SharedDesk<S, N>,
    waits: AtomicBool,
}

impl<R: Wait + Clock, S: BuildHasher, N: Naming> Gate<R> for LetsOneIn<'_, S, N> {
    fn at(&self, rt: &R, point: Point) {
        if point == Point::Planned && self.waits.swap(false, Ordering::SeqCst) {
            // Where it fails, the journal shows it.
            let _ = let_in(rt, self.alloc, self.desk);
        }
    }
}

fn let_in<R: Wait + Clock, S: BuildHasher, N: Naming>(
    rt: &R,
    alloc: Global,
    desk: &SharedDesk<S, N>,
) -> Result<Asked, Refused> {
    let mut seat = Seat::new(alloc, desk, desk.enter(rt));
    seat.ask(rt, request(alloc, 6, "k2")?)
}

#[test]
fn a_planner_that_is_told_lets_a_request_in(rt: HostRuntime) -> Result<(), Fail> {
    let backend = two_servers(rt.alloc())?;
    for row in ROWS {
        let opened = Opened::new(rt.alloc())?;
        let hasher = BuildHasherDefault::<FoldHasher>::new();
        tell::<_, Brand, _>(&rt, rt.alloc(), opened, &backend, hasher, row)?;
    }
    Ok(())
}

fn tell<S: BuildHasher + Drop, N: Naming, R: Wait + Clock + Abort>(
    rt: &R,
    alloc: Global,
    opened: Opened<Entry>,
    backend: &Backend,
    hasher: S,
    row: &Row,
) -> Result<(), Fail>
    requires table { opened ≡ N.table_of 0 }
    requires opening { backend.now ≡ N.opening 0 }
    requires size { N.journal_size 0 ≡ JOURNAL }
{
    let desk = shared::<S, N>(alloc, opened, backend, hasher)?;
    plan_at(rt, alloc, &desk, row)
}

fn plan_at<S: BuildHasher, N: Naming, R: Wait + Clock + Abort>(
    rt: &R,
    alloc: Global,
    desk: &SharedDesk<S, N>,
    row: &Row,
) -> Result<(), Fail> {
    let mut seat = Seat::new(alloc, desk, desk.enter(rt));
    seat.ask(rt, request(alloc, 5, "k1")?)?;
    let maintenance = Change {
        server: server(A),
        setting: Setting::Admin(AdminState::Maint),
    };
    seat.command(rt, maintenance)?;
    let (bell, mut notices) = Bell::new(alloc)?;
    // Two rings that nobody has heard yet are one notice.
    bell.ring(rt);
    bell.clone()?.ring(rt);
    drop(bell);
    let gate = LetsOneIn {
        alloc,
        desk,
        waits: AtomicBool::new(true),
    };
    plan_when_told(rt, alloc, &mut seat, &gate, row.tries, &mut notices);
    are(rt, &seat.journal(rt, alloc)?.entries, row.kinds);
    assert_eq!(rt; seat.planned_now(), row.planned_now, "{row:?}");
    Ok(())
}

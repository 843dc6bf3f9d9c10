//! A planner and clients in two threads: a new pin comes in wherever a plan is made and not installed yet.
ghost use Rattle.std.specs.Prelude.{◌≡◌};

use crate::desks::{JOURNAL, shared};
use crate::farms::{request, two_servers};
use crate::kinds::{Kind, are};
use lb_desk_evacuate::{Evacuation, evacuate};
use lb_desk_model::{Backend, Entry, Event};
use lb_desk_ports::{Gate, Point, Refused};
use lb_desk_seat::Seat;
use lb_desk_shared::{Naming, SharedDesk};
use lb_desk_tie::Opened;
use pin_set::Score;
use std::alloc::Global;
use std::hash::{BuildHasherDefault, FoldHasher};
use std::marker::Brand;
use std::process::Abort;
use std::sync::Wait;
use std::sync::atomic::{AtomicBool, AtomicUsize, Ordering};
use std::test::Fail;
use std::thread::{self, Threads, join};
use std::time::{Clock, Duration};

type Hasher = BuildHasherDefault<FoldHasher>;

/// How often a thread looks whether the other has come, a millisecond apart, before it gives up.
const TURNS: u32 = 10_000;

/// An evacuation that may make so many plans.
#[derive(Clone, Copy, Debug)]
struct Row {
    tries: u32,
    /// A new key for each time that the planner is in its gate, and the number of its request in the desk's history.
    requests: &'static [(&'static str, u64)],
    /// What the journal has then.
    kinds: &'static [Kind],
    /// The score of the plan that is installed: all servers are ready, so each pin stays where it is, and that costs nothing.
    score: Score,
}

const ROWS: &[Row] = &[
    Row {
        tries: 2,
        requests: &[("k1", 1)],
        kinds: &[
            Kind::Snapshot,
            Kind::Made,
            Kind::Stale,
            Kind::Snapshot,
            Kind::Installed,
        ],
        score: Score {
            pins: 1,
            unplaced: 0,
            moved: 0,
            cost: 0,
        },
    },
    Row {
        tries: 3,
        requests: &[("k1", 1), ("k2", 4)],
        kinds: &[
            Kind::Snapshot,
            Kind::Made,
            Kind::Stale,
            Kind::Snapshot,
            Kind::Made,
            Kind::Stale,
            Kind::Snapshot,
            Kind::Installed,
        ],
        score: Score {
            pins: 2,
            unplaced: 0,
            moved: 0,
            cost: 0,
        },
    },
];

/// Where the planner waits for a client. It gives up in time, so that a planner that keeps the desk fails the test and doesn't hang it.
#[derive(Drop)]
struct Meeting {
    /// How often the planner has come.
    came: AtomicUsize,
    /// How many requests were answered.
    served: AtomicUsize,
    gave_up: AtomicBool,
}

impl Meeting {
    fn new() -> Meeting {
        Meeting {
            came: AtomicUsize::new(0),
            served: AtomicUsize::new(0),
            gave_up: AtomicBool::new(false),
        }
    }
}

impl<R: Wait + Clock> Gate<R> for Meeting {
    fn at(&self, rt: &R, point: Point) {
        if point != Point::Planned {
            return;
        }
        let turn = self.came.fetch_add(1, Ordering::SeqCst);
        if !passes(rt, &self.served, turn) {
            self.gave_up.store(true, Ordering::SeqCst);
        }
    }
}

/// Whether the count is above `turn` in time.
fn passes<R: Clock>(rt: &R, count: &AtomicUsize, turn: usize) -> bool {
    for _ in 0..TURNS {
        if count.load(Ordering::SeqCst) > turn {
            return true;
        }
        thread::sleep(rt, Duration::from_millis(1));
    }
    false
}

#[test]
fn planner_lets_traffic_in(rt: HostRuntime) -> Result<(), Fail> {
    let backend = two_servers(rt.alloc())?;
    for row in ROWS {
        let opened = Opened::new(rt.alloc())?;
        meet::<Brand, _>(&rt, rt.alloc(), opened, &backend, row)?;
    }
    Ok(())
}

fn meet<N: Naming + Send + Sync, R: Threads + Wait + Clock + Abort + Sync>(
    rt: &R,
    alloc: Global,
    opened: Opened<Entry>,
    backend: &Backend,
    row: &Row,
) -> Result<(), Fail>
    requires table { opened ≡ N.table_of 0 }
    requires opening { backend.now ≡ N.opening 0 }
    requires size { N.journal_size 0 ≡ JOURNAL }
{
    let desk = shared::<Hasher, N>(alloc, opened, backend, Hasher::new())?;
    let meeting = Meeting::new();
    let (planned, numbered) = join(
        rt,
        || evacuate_once(rt, alloc, &desk, &meeting, row.tries),
        || serve_each(rt, alloc, &desk, &meeting, row.requests),
    );
    assert!(rt; !meeting.gave_up.load(Ordering::SeqCst), "{row:?}");
    assert!(rt; numbered?, "{row:?}");
    // Only the last try plans while all others wait.
    assert_eq!(rt; planned?, (Evacuation::Done(row.score), 1), "{row:?}");
    let mut pass = desk.enter(rt);
    are(rt, &desk.entries(rt, &mut pass, alloc)?.entries, row.kinds);
    Ok(())
}

/// The planner's thread: how its evacuation ended, and how often it planned while all others wait.
fn evacuate_once<N: Naming, R: Wait + Clock>(
    rt: &R,
    alloc: Global,
    desk: &SharedDesk<Hasher, N>,
    meeting: &Meeting,
    tries: u32,
) -> Result<(Evacuation, u64), Refused> {
    let mut seat = Seat::new(alloc, desk, desk.enter(rt));
    let evacuation = evacuate(rt, alloc, &mut seat, meeting, tries)?;
    Ok((evacuation, seat.planned_now()))
}

/// The clients' thread: one request each time that the planner has come. Whether the planner came so often, and each receipt has its
/// number.
fn serve_each<N: Naming, R: Wait + Clock>(
    rt: &R,
    alloc: Global,
    desk: &SharedDesk<Hasher, N>,
    meeting: &Meeting,
    requests: &[(&'static str, u64)],
) -> Result<bool, Refused> {
    for (turn, (key, number)) in requests.iter().enumerate() {
        if !passes(rt, &meeting.came, turn) || serve(rt, alloc, desk, key)? != *number {
            return Ok(false);
        }
        meeting.served.fetch_add(1, Ordering::SeqCst);
    }
    Ok(true)
}

/// One request, with a pass of its own, and its number in the desk's history.
fn serve<N: Naming, R: Wait + Clock>(
    rt: &R,
    alloc: Global,
    desk: &SharedDesk<Hasher, N>,
    key: &'static str,
) -> Result<u64, Refused> {
    let mut pass = desk.enter(rt);
    let event = Event::Serve(request(alloc, 6, key)?);
    let receipt = desk.call(rt, &mut pass, event)?;
    Ok(receipt.number())
}

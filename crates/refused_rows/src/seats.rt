//! An evacuation over a seat at a shared desk.
ghost use Rattle.std.specs.Prelude.{◌≡◌};

use crate::farm::{A, FIRST, TWO_MOVED, farm, request, server};
use crate::marks::{begin, end, tell};
use lb_desk_evacuate::{Evacuation, evacuate};
use lb_desk_model::{Backend, Entry, Event};
use lb_desk_ports::{OpenGate, Port, Refused};
use lb_desk_seat::Seat;
use lb_desk_shared::{Naming, SharedDesk};
use lb_desk_steer::Steer;
use lb_desk_step::Desk;
use lb_desk_tie::Opened;
use server_state::{AdminState, Change, Setting};
use std::alloc::Global;
use std::hash::{BuildHasher, BuildHasherDefault, FoldHasher};
use std::marker::Brand;
use std::process::Abort;
use std::sync::Wait;
use std::test::Fail;
use std::time::Clock;

/// More entries than the test makes.
const JOURNAL: u32 = 100;

#[test]
fn an_evacuation(rt: HostRuntime) -> Result<(), Fail> {
    let backend = farm(rt.alloc())?;
    let opened = Opened::new(rt.alloc())?;
    let hasher = BuildHasherDefault::<FoldHasher>::new();
    at_a_desk::<_, Brand, _>(&rt, rt.alloc(), opened, &backend, hasher)
}

fn at_a_desk<S: BuildHasher + Drop, N: Naming, R: Wait + Clock + Abort>(
    rt: &R,
    alloc: Global,
    opened: Opened<Entry>,
    backend: &Backend,
    hasher: S,
) -> Result<(), Fail>
    requires table { opened ≡ N.table_of 0 }
    requires opening { backend.now ≡ N.opening 0 }
    requires size { N.journal_size 0 ≡ JOURNAL }
{
    let desk = Desk::open(alloc, backend, JOURNAL, hasher)?;
    let desk = SharedDesk::<S, N>::of(opened, 0, desk);
    at_a_seat(rt, alloc, &desk)
}

/// All calls come from one seat.
fn at_a_seat<S: BuildHasher, N: Naming, R: Wait + Clock + Abort>(
    rt: &R,
    alloc: Global,
    desk: &SharedDesk<S, N>,
) -> Result<(), Fail> {
    let mut seat = Seat::new(alloc, desk, desk.enter(rt));
    begin_the_day(rt, alloc, &mut seat)?;
    leave_a(rt, alloc, &mut seat)
}

/// Pins come to a, b, c and a, of which a must be left.
fn begin_the_day<R, P: Port<R> + Steer<R>>(
    rt: &R,
    alloc: Global,
    seat: &mut P,
) -> Result<(), Fail> {
    for (moment, key) in FIRST.iter().enumerate() {
        seat.ask(rt, request(alloc, moment as u64, *key)?)?;
    }
    seat.command(
        rt,
        Change {
            server: server(A),
            setting: Setting::Admin(AdminState::Drain),
        },
    )?;
    Ok(())
}

/// Plans until a is left, by at most two tries.
fn leave_a<R: Abort, P: Steer<R>>(rt: &R, alloc: Global, seat: &mut P) -> Result<(), Fail> {
    let pins = seat.rows(rt, alloc)?;
    let entries = seat.journal(rt, alloc)?.entries;
    begin(alloc)?;
    let told = evacuate(rt, alloc, seat, &OpenGate, 2);
    end(alloc)?;
    let evacuation = match told {
        Ok(evacuation) => evacuation,
        Err(refused) => {
            tell(alloc)?;
            assert_eq!(rt; refused, Refused::Memory);
            assert!(rt;
                seat.rows(rt, alloc)? == pins,
                "a refused evacuation moved pins"
            );
            assert!(rt;
                is_behind(&entries, &seat.journal(rt, alloc)?.entries),
                "a refused evacuation did more than take a sheet"
            );
            evacuate(rt, alloc, seat, &OpenGate, 2)?
        }
    };
    assert_eq!(rt; evacuation, Evacuation::Done(TWO_MOVED));
    Ok(())
}

/// Whether the entries are those that there were, with a sheet after them or without.
fn is_behind(before: &[Entry], entries: &[Entry]) -> bool {
    match entries.split_last() {
        Some((last, rest)) if last.event == Event::Snapshot => rest == before,
        _ => entries == before,
    }
}

//! Two threads at two desks.
ghost use Rattle.std.specs.Prelude.{◌≡◌};

use crate::closings::{close_with, judge};
use crate::desks::JOURNAL;
use crate::thread_calls::{day, request_once};
use crate::thread_farms::{Hasher, desk_of, farm};
use lb_desk_model::{Backend, Entry, ServedAs};
use lb_desk_shared::{Naming, SharedDesk};
use lb_desk_tie::{Opened, Pass};
use std::alloc::Global;
use std::marker::Brand;
use std::process::Abort;
use std::sync::Wait;
use std::test::Fail;
use std::thread::{Threads, join};
use std::time::Clock;

/// Two desks of one backend.
#[derive(Drop)]
struct Desks<B: Naming> {
    one: SharedDesk<Hasher, B>,
    two: SharedDesk<Hasher, B>,
}

/// What a thread brings back: its pass at each desk.
type Passes<B> = Option<(Pass<Entry, B>, Pass<Entry, B>)>;

/// A thread's calls at both desks, with keys of its own and one that others have, too.
fn work<B: Naming, R: Wait + Clock + Abort>(
    rt: &R,
    alloc: Global,
    desks: &Desks<B>,
    key: &'static str,
) -> Passes<B> {
    let one = day(rt, alloc, &desks.one, (key, "both")).ok()?;
    let two = day(rt, alloc, &desks.two, ("both", key)).ok()?;
    Some((one, two))
}

/// Both threads together.
fn work_twice<B: Naming + Send + Sync, R: Threads + Wait + Clock + Abort + Sync>(
    rt: &R,
    alloc: Global,
    desks: &Desks<B>,
) -> (Passes<B>, Passes<B>) {
    join(
        rt,
        || work(rt, alloc, desks, "x"),
        || work(rt, alloc, desks, "y"),
    )
}

/// Two threads share two desks; then each desk is closed, and its journal judged.
fn share_two<B: Naming + Send + Sync, R: Threads + Wait + Clock + Abort + Sync>(
    rt: &R,
    alloc: Global,
    one: Opened<Entry>,
    two: Opened<Entry>,
    backend: &Backend,
) -> Result<(), Fail>
    requires one { one ≡ B.table_of 1 }
    requires two { two ≡ B.table_of 2 }
    requires opening_one { B.opening 1 ≡ backend.now }
    requires opening_two { B.opening 2 ≡ backend.now }
    requires size_one { B.journal_size 1 ≡ JOURNAL }
    requires size_two { B.journal_size 2 ≡ JOURNAL }
{
    let desks = Desks::<B> {
        one: desk_of(alloc, one, 1, backend)?,
        two: desk_of(alloc, two, 2, backend)?,
    };
    let (x, y) = work_twice(rt, alloc, &desks);
    let (x_one, x_two) = x.expect(rt, "a thread failed");
    let (y_one, y_two) = y.expect(rt, "a thread failed");
    let Desks { one, two } = desks;
    let closing = close_with(rt, alloc, one, x_one, y_one)?;
    judge(rt, alloc, backend, &closing)?;
    let closing = close_with(rt, alloc, two, x_two, y_two)?;
    judge(rt, alloc, backend, &closing)
}

#[test]
fn two_threads_share_two_desks(rt: HostRuntime) -> Result<(), Fail> {
    let alloc = rt.alloc();
    let one = Opened::new(alloc)?;
    let two = Opened::new(alloc)?;
    let backend = farm(alloc)?;
    share_two::<Brand, _>(&rt, alloc, one, two, &backend)
}

/// One thread makes a pin; once it has ended, another is served through it.
fn keep_for_another<B: Naming + Send + Sync, R: Threads + Wait + Clock + Abort + Sync>(
    rt: &R,
    alloc: Global,
    opened: Opened<Entry>,
    backend: &Backend,
) -> Result<(), Fail>
    requires table { opened ≡ B.table_of 0 }
    requires opening { B.opening 0 ≡ backend.now }
    requires size { B.journal_size 0 ≡ JOURNAL }
{
    let desk = desk_of::<B>(alloc, opened, 0, backend)?;
    let (first, _) = join(rt, || serve(rt, alloc, &desk), || ());
    let (_, second) = join(rt, || (), || serve(rt, alloc, &desk));
    assert_eq!(rt; first, Some(ServedAs::Made), "a new pin");
    assert_eq!(rt; second, Some(ServedAs::Kept), "the other's pin");
    Ok(())
}

/// One request, with a pass of its own.
fn serve<B: Naming, R: Wait + Clock + Abort>(
    rt: &R,
    alloc: Global,
    desk: &SharedDesk<Hasher, B>,
) -> Option<ServedAs> {
    let mut pass = desk.enter(rt);
    request_once(rt, alloc, desk, &mut pass, "x").ok()?
}

#[test]
fn a_pin_of_one_thread_is_kept_for_another(rt: HostRuntime) -> Result<(), Fail> {
    let alloc = rt.alloc();
    let opened = Opened::new(alloc)?;
    let backend = farm(alloc)?;
    keep_for_another::<Brand, _>(&rt, alloc, opened, &backend)
}

//! Many threads at two desks, which are then closed.
ghost use Rattle.std.specs.Prelude.{◌≡◌, ◌<◌, IfOk};
ghost use Rattle.lb_desk_tie.specs.Receipts.{AreOf};

use crate::events::Events;
use crate::visits::{Calls, Visitor};
use crate::{JournalFault, backend_in, judge};
use anyhow::{Context, Result, bail};
use lb_desk_model::{Backend, Entry};
use lb_desk_ports::Refused;
use lb_desk_seat::Seat;
use lb_desk_shared::{Naming, SharedDesk};
use lb_desk_step::Desk;
use lb_desk_tie::{Opened, Pass};
use std::alloc::{AllocError, Global};
use std::hash::RandomState;
use std::marker::Brand;
use std::random::RandomSource;
use std::sync::Wait;
use std::thread::{Threads, map_indices};
use std::time::Clock;

/// The farm of both desks: checked servers with limits of connections and of pins, a backup, and a table that is full now and then.
const FARM: &str = "backend web
  stick-table type string size 6 expire 2s
  server s0 127.0.0.1:80 maxpins 3 maxconn 2 check rise 1 fall 2
  server s1 127.0.0.1:80 maxpins 3 weight 2 check rise 1 fall 2
  server s2 127.0.0.1:80 maxpins 2
  server s3 127.0.0.1:80 backup
";

/// How many entries a call makes at most: a request for a server expires pins first, and a plan made while all others wait takes a
/// sheet first.
const ENTRIES: u64 = 2;

/// How many calls a thread makes at most beyond those that it is asked for, since a request takes up to four.
const MORE: u64 = 3;

/// How many entries a journal keeps at most. If there are more, it is reported as not whole.
const MOST_ENTRIES: u64 = 100_000_000;

/// What the threads did, and what came of it.
#[derive(Debug, Drop)]
pub struct ThreadsTried {
    /// How many calls were made, at both desks together.
    pub calls: u64,
    /// How many connections were opened, and how many of them ended when they were shut.
    pub opened: u64,
    pub closed: u64,
    /// How many events each desk took.
    pub events: (u64, u64),
    /// What is wrong with the journal of each.
    pub faults: (Option<JournalFault>, Option<JournalFault>),
}

/// Two desks of one backend.
#[derive(Drop)]
struct Desks<B: Naming> {
    one: SharedDesk<RandomState, B>,
    two: SharedDesk<RandomState, B>,
}

/// What a thread brings back: its pass of each desk, and what it did.
#[derive(Drop)]
struct Worked<B: Naming> {
    one: Pass<Entry, B>,
    two: Pass<Entry, B>,
    calls: Calls,
}

/// So many threads make so many random calls each, and up to three more, at two desks, which are then closed.
pub fn try_threads<R: Threads + Wait + Clock + RandomSource + Sync>(
    rt: &R,
    alloc: Global,
    threads: usize,
    calls: u64,
) -> Result<ThreadsTried> {
    let backend = backend_in(alloc, FARM)?;
    let one = Opened::new(alloc)?;
    let two = Opened::new(alloc)?;
    let hasher = RandomState::new(rt)?;
    let journal = journal_size(threads, calls);
    share::<Brand, R>(
        rt,
        alloc,
        (one, two),
        &backend,
        hasher,
        journal,
        threads,
        calls,
    )
}

/// How many entries a journal has to keep for so many calls of each thread.
fn journal_size(threads: usize, calls: u64) -> u32
    ensures { 0 < result }
{
    let each = calls.saturating_add(MORE).saturating_mul(ENTRIES);
    let all = (threads as u64).saturating_mul(each);
    ((all.min(MOST_ENTRIES) % (1 << 32)) as u32).max(1)
}

/// The same, with desks whose name is picked.
fn share<B: Naming + Send + Sync, R: Threads + Wait + Clock + Sync>(
    rt: &R,
    alloc: Global,
    opened: (Opened<Entry>, Opened<Entry>),
    backend: &Backend,
    hasher: RandomState,
    journal: u32,
    threads: usize,
    calls: u64,
) -> Result<ThreadsTried>
    requires journal { 0 < journal }
    requires one { opened.0 ≡ B.table_of 1 }
    requires two { opened.1 ≡ B.table_of 2 }
    requires opening_one { B.opening 1 ≡ backend.now }
    requires opening_two { B.opening 2 ≡ backend.now }
    requires size_one { B.journal_size 1 ≡ journal }
    requires size_two { B.journal_size 2 ≡ journal }
{
    let desks = Desks::<B> {
        one: desk_of(alloc, opened.0, 1, backend, hasher, journal)?,
        two: desk_of(alloc, opened.1, 2, backend, hasher, journal)?,
    };
    let worked = map_indices(
        rt,
        alloc,
        threads,
        &|thread| { work(rt, alloc, &desks, thread as u64, calls).ok() },
    )?;
    finish(alloc, desks, backend, worked)
}

/// The desk of this number, whose journal keeps so many entries.
fn desk_of<B: Naming>(
    alloc: Global,
    opened: Opened<Entry>,
    number: u64,
    backend: &Backend,
    hasher: RandomState,
    journal: u32,
) -> Result<SharedDesk<RandomState, B>>
    requires journal { 0 < journal }
    requires table { opened ≡ B.table_of number }
    requires opening { B.opening number ≡ backend.now }
    requires size { B.journal_size number ≡ journal }
    ensures { IfOk result (λ desk. desk ≡ number) }
{
    let desk = Desk::open(alloc, backend, journal, hasher)?;
    Ok(SharedDesk::of(opened, number, desk))
}

/// A thread's calls, now at the one desk and now at the other.
fn work<B: Naming, R: Wait + Clock>(
    rt: &R,
    alloc: Global,
    desks: &Desks<B>,
    seed: u64,
    calls: u64,
) -> Result<Worked<B>, Refused> {
    let one = Seat::new(alloc, &desks.one, desks.one.enter(rt));
    let two = Seat::new(alloc, &desks.two, desks.two.enter(rt));
    let (mut one, mut two) = (Visitor::new(one), Visitor::new(two));
    let mut events = Events::new(seed, 4, 1000);
    for _ in 0..calls {
        if one.calls().made.saturating_add(two.calls().made) >= calls {
            break;
        }
        if events.dice().is_one_in(2) {
            one.visit(rt, alloc, &mut events)?;
        } else {
            two.visit(rt, alloc, &mut events)?;
        }
    }
    let calls = one.calls().and(two.calls());
    Ok(Worked {
        one: one.into_seat().into_pass(),
        two: two.into_seat().into_pass(),
        calls,
    })
}

/// Closes both desks, and runs their journals again.
fn finish<B: Naming>(
    alloc: Global,
    desks: Desks<B>,
    backend: &Backend,
    worked: Vec<Option<Worked<B>>>,
) -> Result<ThreadsTried> {
    let mut ones = Vec::with_capacity(alloc, worked.len())?;
    let mut twos = Vec::with_capacity(alloc, worked.len())?;
    let mut all = Calls::none();
    for found in worked {
        let Worked { one, two, calls } = found.context("a call was refused")?;
        ones.push(one)?;
        twos.push(two)?;
        all = all.and(calls);
    }
    let Desks { one, two } = desks;
    let one = close(alloc, one, ones, backend)?;
    let two = close(alloc, two, twos, backend)?;
    Ok(ThreadsTried {
        calls: all.made,
        opened: all.opened,
        closed: all.closed,
        events: (one.0, two.0),
        faults: (one.1, two.1),
    })
}

/// Closes the desk with its passes. Returns how many events it took, and what is wrong with its journal.
fn close<B: Naming>(
    alloc: Global,
    desk: SharedDesk<RandomState, B>,
    passes: Vec<Pass<Entry, B>>,
    backend: &Backend,
) -> Result<(u64, Option<JournalFault>)> {
    let own = own_passes(alloc, desk.number(), passes)?;
    let Ok(closing) = desk.close(own) else {
        bail!("a desk that can't be closed");
    };
    let fault = judge(alloc, backend, &closing)?;
    Ok((closing.journal.next_number(), fault))
}

/// Those of the passes that the desk of this number gave out.
fn own_passes<B: Naming>(
    alloc: Global,
    number: u64,
    passes: Vec<Pass<Entry, B>>,
) -> Result<Vec<Pass<Entry, B>>, AllocError>
    ensures { IfOk result (λ own. AreOf number own.items) }
{
    let mut own = Vec::with_capacity(alloc, passes.len())?;
    for pass in passes {
        if pass.keeper() == number {
            own.push(pass)?;
        }
    }
    Ok(own)
}

//! One desk that many threads use: how many whole requests a second, and how long a call takes that waits for no other. Also how long
//! threads wait while all pins and the journal are copied; they go on calling for as long as the copies last.
//!
//! A whole request is an Expire, a Serve, an Open and a Close. Requests and their pins are made beforehand, except beside copies.
//! Alone each of the four is timed by itself; threads that call at once ask as the balancer does, for the first two together.
ghost use Rattle.std.specs.Prelude.{◌≡◌, false};
ghost use Rattle.lb_desk_shared.specs.Calls.{is_of_a_connection};

use crate::farm::{backend, request};
use crate::numbered::drawn;
use crate::{Times, tell_clock};
use anyhow::{Context, Result};
use lb_desk_model::{Backend, Entry, Event, Reply, Request, ServedAs};
use lb_desk_ports::{Asked, Opening, Port, Refused};
use lb_desk_seat::Seat;
use lb_desk_shared::{Naming, SharedDesk};
use lb_desk_step::Desk;
use lb_desk_tie::Opened;
use lb_types::ServerId;
use std::alloc::{AllocError, Global};
use std::hash::RandomState;
use std::marker::Brand;
use std::random::RandomSource;
use std::rt::{Clock, Runtime};
use std::sync::Wait;
use std::sync::atomic::{AtomicBool, Ordering};
use std::thread::{Threads, map_vec};
use std::time::Instant;

const THREADS: u32 = 8;

/// How many entries the desk keeps: as many as by default.
const JOURNAL: u32 = 100_000;

/// How often all pins and the journal are copied.
const COPIES: u32 = 3;

/// What a thread does at the desk.
#[derive(Drop)]
enum Job {
    /// Serves these requests.
    Serve(Vec<Request>),
    /// Serves requests with keys drawn from those of so many pins, from a draw on, until the copies have ended.
    ServeOn { first: u32, pins: u32 },
    /// Copies all pins, and then the journal, a few times.
    Copy,
}

/// What a thread did.
#[derive(Debug, Drop)]
struct Work {
    kept: u64,
    copied: usize,
    /// How long it took until the desk gave a server, and how long the copies took.
    asks: Times,
    rows: Times,
    entries: Times,
}

/// How long the four events of requests took, each by itself.
#[derive(Debug, Drop)]
struct FourTimes {
    expire: Times,
    serve: Times,
    open: Times,
    close: Times,
}

impl FourTimes {
    fn none() -> Self {
        FourTimes {
            expire: Times::none(),
            serve: Times::none(),
            open: Times::none(),
            close: Times::none(),
        }
    }

    fn tell(&self, rt: &impl Runtime) -> Result<()> {
        self.expire.tell(rt, "an Expire")?;
        self.serve.tell(rt, "a Serve")?;
        self.open.tell(rt, "an Open")?;
        self.close.tell(rt, "a Close")
    }
}

impl Work {
    fn none() -> Self {
        Work {
            kept: 0,
            copied: 0,
            asks: Times::none(),
            rows: Times::none(),
            entries: Times::none(),
        }
    }

    /// Reports the times of what copied, or of what served beside copies.
    fn tell_beside_copies(&self, rt: &impl Runtime) -> Result<()> {
        if self.copied == 0 {
            return self.asks.tell(rt, "an Expire and a Serve beside copies");
        }
        self.rows.tell(rt, "a copy of all pins")?;
        self.entries.tell(rt, "a copy of the journal")
    }
}

/// Times one desk of so many pins, at which each of 8 threads makes so many requests.
pub fn measure_shared<R: Runtime + Threads + Wait + RandomSource + Sync>(
    rt: &R,
    alloc: Global,
    pins: u32,
    requests: u32,
) -> Result<()> {
    tell_clock(rt)?;
    let backend = backend(alloc, pins)?;
    let opened = Opened::new(alloc)?;
    let hasher = RandomState::new(rt)?;
    share::<Brand, R>(rt, alloc, opened, &backend, hasher, pins, requests)
}

/// The same, with a desk whose name is picked.
fn share<B: Naming + Send + Sync, R: Runtime + Threads + Wait + Sync>(
    rt: &R,
    alloc: Global,
    opened: Opened<Entry>,
    backend: &Backend,
    hasher: RandomState,
    pins: u32,
    requests: u32,
) -> Result<()>
    requires table { opened ≡ B.table_of 0 }
    requires opening { B.opening 0 ≡ backend.now }
    requires size { B.journal_size 0 ≡ JOURNAL }
{
    let desk = Desk::open(alloc, backend, JOURNAL, hasher)?;
    let desk = SharedDesk::<RandomState, B>::of(opened, 0, desk);
    use_desk(rt, alloc, &desk, pins, requests)
}

// Where a function owns a desk or a seat and makes many calls after which it would end, the prover takes minutes. So most are lent
// one.
fn use_desk<B, R>(
    rt: &R,
    alloc: Global,
    desk: &SharedDesk<RandomState, B>,
    pins: u32,
    requests: u32,
) -> Result<()>
where
    B: Naming + Send + Sync,
    R: Runtime + Threads + Wait + Sync,
{
    make_pins(rt, alloc, desk, pins)?;
    serve_alone(rt, alloc, desk, pins, requests)?;
    serve_together(rt, alloc, desk, pins, requests)?;
    serve_beside_copies(rt, alloc, desk, pins)
}

/// Makes the pins.
fn make_pins<B: Naming, R: Wait>(
    rt: &R,
    alloc: Global,
    desk: &SharedDesk<RandomState, B>,
    pins: u32,
) -> Result<()> {
    let mut seat = Seat::new(alloc, desk, desk.enter(rt));
    make_pins_at(rt, alloc, &mut seat, pins)
}

fn make_pins_at<B: Naming, R: Wait>(
    rt: &R,
    alloc: Global,
    seat: &mut Seat<'_, RandomState, B>,
    pins: u32,
) -> Result<()> {
    for number in 0..pins {
        seat.ask(rt, request(alloc, number)?)?;
    }
    Ok(())
}

/// One thread's requests, while no other thread calls: how long each of their events takes.
fn serve_alone<B: Naming, R: Runtime + Wait>(
    rt: &R,
    alloc: Global,
    desk: &SharedDesk<RandomState, B>,
    pins: u32,
    requests: u32,
) -> Result<()> {
    let mut times = FourTimes::none();
    let mut kept: u64 = 0;
    for request in drawn_requests(alloc, 0, requests, pins)? {
        let how = tell_four(rt, desk, request, &mut times)?;
        kept = kept.saturating_add(u64::from(how == Some(ServedAs::Kept)));
    }
    println!(rt; "alone: {kept} kept")?;
    times.tell(rt)
}

/// One whole request, each of its events by itself, and how it was served if it was.
fn tell_four<B: Naming, R: Runtime + Wait>(
    rt: &R,
    desk: &SharedDesk<RandomState, B>,
    request: Request,
    times: &mut FourTimes,
) -> Result<Option<ServedAs>> {
    let expiry = Event::Expire(request.moment);
    tell_event(rt, desk, expiry, &mut times.expire)?;
    let reply = tell_event(rt, desk, Event::Serve(request), &mut times.serve)?;
    let Some((server, how)) = served(&reply) else {
        return Ok(None);
    };
    connect(rt, desk, server, times)?;
    Ok(Some(how))
}

/// Opens a connection to the server and ends it, each by itself.
fn connect<B: Naming, R: Runtime + Wait>(
    rt: &R,
    desk: &SharedDesk<RandomState, B>,
    server: ServerId,
    times: &mut FourTimes,
) -> Result<()> {
    let mut pass = desk.enter(rt);
    let start = Instant::now(rt)?;
    match desk.open(rt, &mut pass, server)? {
        Opening::Opened(slot) => {
            let opened = times.open.add(rt, start);
            let start = Instant::now(rt);
            desk.shut(rt, &mut pass, slot)?;
            times.close.add(rt, start?)?;
            opened
        }
        Opening::Full | Opening::NotServing => times.open.add(rt, start),
    }
}

fn served(reply: &Reply) -> Option<(ServerId, ServedAs)> {
    match reply {
        Reply::Served(server, how) => Some((*server, *how)),
        _ => None,
    }
}

/// Takes one event to the desk. The pass for it is made beforehand, and stays out.
fn tell_event<B: Naming, R: Runtime + Wait>(
    rt: &R,
    desk: &SharedDesk<RandomState, B>,
    event: Event,
    times: &mut Times,
) -> Result<Reply>
    requires { is_of_a_connection event ≡ false }
{
    let mut pass = desk.enter(rt);
    let start = Instant::now(rt)?;
    let told = desk.tell(rt, &mut pass, event)?;
    times.add(rt, start)?;
    Ok(told.reply)
}

/// Requests of all threads at once.
fn serve_together<B, R>(
    rt: &R,
    alloc: Global,
    desk: &SharedDesk<RandomState, B>,
    pins: u32,
    requests: u32,
) -> Result<()>
where
    B: Naming + Send + Sync,
    R: Runtime + Threads + Wait + Sync,
{
    let jobs = jobs(alloc, THREADS, pins, requests)?;
    let start = Instant::now(rt)?;
    let works = do_jobs(rt, alloc, desk, jobs, &AtomicBool::new(true))?;
    let micros = start.elapsed(rt)?.as_micros();
    let kept = kept_by_all(&works)?;
    println!(rt; "{THREADS} threads: {kept} kept")?;
    let rate = u128::from(kept)
        .saturating_mul(1_000_000)
        .checked_div(micros);
    eprintln!(rt;
        "{THREADS} threads: {} requests a second",
        rate.unwrap_or(0)
    )?;
    Ok(())
}

fn kept_by_all(works: &[Option<Work>]) -> Result<u64> {
    let mut kept: u64 = 0;
    for found in works {
        let work = found.as_ref().context("a call was refused")?;
        kept = kept.saturating_add(work.kept);
    }
    Ok(kept)
}

/// Requests of all threads but one, which copies all pins and the journal.
fn serve_beside_copies<B, R>(
    rt: &R,
    alloc: Global,
    desk: &SharedDesk<RandomState, B>,
    pins: u32,
) -> Result<()>
where
    B: Naming + Send + Sync,
    R: Runtime + Threads + Wait + Sync,
{
    let jobs = jobs_beside_copies(alloc, pins)?;
    let works = do_jobs(rt, alloc, desk, jobs, &AtomicBool::new(false))?;
    tell_beside_copies(rt, &works)
}

fn jobs_beside_copies(alloc: Global, pins: u32) -> Result<Vec<Job>, AllocError> {
    let mut jobs = Vec::with_capacity(alloc, THREADS as usize)?;
    for thread in 1..THREADS {
        let first = thread.saturating_mul(pins);
        jobs.push(Job::ServeOn { first, pins })?;
    }
    jobs.push(Job::Copy)?;
    Ok(jobs)
}

fn tell_beside_copies(rt: &impl Runtime, works: &[Option<Work>]) -> Result<()> {
    let mut served: usize = 0;
    let mut copied: usize = 0;
    for found in works {
        let work = found.as_ref().context("a call was refused")?;
        work.tell_beside_copies(rt)?;
        copied = copied.max(work.copied);
        served = served.saturating_add(usize::from(work.copied == 0));
    }
    println!(rt; "beside copies: {served} threads, {copied} pins copied")?;
    Ok(())
}

/// So many threads' requests.
fn jobs(alloc: Global, threads: u32, pins: u32, requests: u32) -> Result<Vec<Job>, AllocError> {
    let mut jobs = Vec::with_capacity(alloc, threads as usize)?;
    for thread in 0..threads {
        let first = thread.saturating_mul(requests);
        jobs.push(Job::Serve(drawn_requests(alloc, first, requests, pins)?))?;
    }
    Ok(jobs)
}

/// So many requests with keys drawn from those of the pins.
fn drawn_requests(
    alloc: Global,
    first: u32,
    count: u32,
    pins: u32,
) -> Result<Vec<Request>, AllocError> {
    let mut requests = Vec::with_capacity(alloc, count as usize)?;
    for draw in first..first.saturating_add(count) {
        requests.push(request(alloc, drawn(draw, pins))?)?;
    }
    Ok(requests)
}

/// Does each job in a thread of its own. What serves on ends once `copied` is set.
fn do_jobs<B, R>(
    rt: &R,
    alloc: Global,
    desk: &SharedDesk<RandomState, B>,
    jobs: Vec<Job>,
    copied: &AtomicBool,
) -> Result<Vec<Option<Work>>, AllocError>
where
    B: Naming + Send + Sync,
    R: Clock + Threads + Wait + Sync,
{
    map_vec(rt, jobs, &|job| do_job(rt, alloc, desk, job, copied))
}

/// Does the job. None where a call was refused, or the clock can't be read.
fn do_job<B: Naming, R: Wait + Clock>(
    rt: &R,
    alloc: Global,
    desk: &SharedDesk<RandomState, B>,
    job: Job,
    copied: &AtomicBool,
) -> Option<Work> {
    let mut seat = Seat::new(alloc, desk, desk.enter(rt));
    let mut work = Work::none();
    let done = match job {
        Job::Serve(requests) => serve_all(rt, &mut seat, requests, &mut work),
        Job::ServeOn { first, pins } => {
            serve_on(rt, alloc, &mut seat, (first, pins), copied, &mut work)
        }
        Job::Copy => copy_often(rt, alloc, desk, copied, &mut work),
    };
    done.ok()?;
    Some(work)
}

/// Serves these requests.
fn serve_all<B: Naming, R: Wait + Clock>(
    rt: &R,
    seat: &mut Seat<'_, RandomState, B>,
    requests: Vec<Request>,
    work: &mut Work,
) -> Result<()> {
    for request in requests {
        serve(rt, seat, request, work)?;
    }
    Ok(())
}

/// Serves requests with keys drawn from those of so many pins, from a draw on, until the copies have ended.
fn serve_on<B: Naming, R: Wait + Clock>(
    rt: &R,
    alloc: Global,
    seat: &mut Seat<'_, RandomState, B>,
    draws: (u32, u32),
    copied: &AtomicBool,
    work: &mut Work,
) -> Result<()> {
    let (mut draw, pins) = draws;
    for _ in rt.forever() {
        if copied.load(Ordering::SeqCst) {
            break;
        }
        serve(rt, seat, request(alloc, drawn(draw, pins))?, work)?;
        draw = draw.wrapping_add(1);
    }
    Ok(())
}

/// One whole request.
fn serve<B: Naming, R: Wait + Clock>(
    rt: &R,
    seat: &mut Seat<'_, RandomState, B>,
    request: Request,
    work: &mut Work,
) -> Result<()> {
    let start = Instant::now(rt)?;
    let asked = seat.ask(rt, request)?;
    work.asks.add(rt, start)?;
    let Asked::Served(server, how) = asked else {
        return Ok(());
    };
    work.kept = work.kept.saturating_add(u64::from(how == ServedAs::Kept));
    open_and_shut(rt, seat, server)
}

fn open_and_shut<B: Naming, R: Wait>(
    rt: &R,
    seat: &mut Seat<'_, RandomState, B>,
    server: ServerId,
) -> Result<()> {
    if let Opening::Opened(slot) = seat.open(rt, server)? {
        seat.shut(rt, slot)?;
    }
    Ok(())
}

/// Copies all pins, and then the journal, and again, and says when that has ended, also where it is refused.
fn copy_often<B: Naming, R: Wait + Clock>(
    rt: &R,
    alloc: Global,
    desk: &SharedDesk<RandomState, B>,
    copied: &AtomicBool,
    work: &mut Work,
) -> Result<()> {
    let done = copy_each(rt, alloc, desk, work);
    copied.store(true, Ordering::SeqCst);
    done
}

fn copy_each<B: Naming, R: Wait + Clock>(
    rt: &R,
    alloc: Global,
    desk: &SharedDesk<RandomState, B>,
    work: &mut Work,
) -> Result<()> {
    for _ in 0..COPIES {
        copy_pins(rt, alloc, desk, work)?;
        copy_journal(rt, alloc, desk, work)?;
    }
    Ok(())
}

fn copy_pins<B: Naming, R: Wait + Clock>(
    rt: &R,
    alloc: Global,
    desk: &SharedDesk<RandomState, B>,
    work: &mut Work,
) -> Result<()> {
    let mut pass = desk.enter(rt);
    let start = Instant::now(rt)?;
    let rows = desk.rows(rt, &mut pass, alloc)?;
    work.rows.add(rt, start)?;
    work.copied = rows.len();
    Ok(())
}

fn copy_journal<B: Naming, R: Wait + Clock>(
    rt: &R,
    alloc: Global,
    desk: &SharedDesk<RandomState, B>,
    work: &mut Work,
) -> Result<()> {
    let mut pass = desk.enter(rt);
    let start = Instant::now(rt)?;
    let _entries = desk.entries(rt, &mut pass, alloc)?;
    work.entries.add(rt, start)
}

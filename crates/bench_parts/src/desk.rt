//! The events of a running desk, each timed by itself, with requests made beforehand and a seeded hasher.
//!
//! First the journal of a small desk is filled. Its memory is what the process has more than before; later there would be memory that
//! others gave back. Then another desk's table grows from empty to so many pins. It serves requests whose pins it has, alone and with
//! the three events round each; then as many requests with new keys, each of which purges the oldest pin. Then come sheets of 1,000
//! kinds at 128 servers. A server is drained and the plan installed that moves its pins, and in the end all pins expire at once.

use crate::farm::{EXPIRE, backend, drawn_requests, requests};
use crate::{Times, grown, resident, tell_clock};
use anyhow::{Result, bail};
use dual_cert_plan::Sheet;
use flow_planner::plan;
use lb_desk_model::{Backend, Event, Reply, ServedAs, Shared};
use lb_desk_step::Desk;
use lb_types::{Moment, ServerId};
use pin_set::Score;
use server_state::{AdminState, Change, Setting};
use std::alloc::Global;
use std::hash::{BuildHasher, RandomState};
use std::random::RandomSource;
use std::rt::Runtime;
use std::time::Instant;

/// For how many events requests are made beforehand.
const BATCH: u32 = 10_000;

/// How many entries a desk keeps by default.
const JOURNAL: u32 = 100_000;

/// How many sheets are taken.
const SHEETS: u32 = 5;

/// How requests were answered.
#[derive(Clone, Copy, Debug)]
struct Answers {
    kept: u64,
    made: u64,
    others: u64,
}

impl Answers {
    fn none() -> Self {
        Answers {
            kept: 0,
            made: 0,
            others: 0,
        }
    }

    fn add(&mut self, reply: &Reply) {
        let count = match reply {
            Reply::Served(_, ServedAs::Kept) => &mut self.kept,
            Reply::Served(_, ServedAs::Made) => &mut self.made,
            _ => &mut self.others,
        };
        *count = count.saturating_add(1);
    }

    fn tell(&self, rt: &impl Runtime, what: &str) -> Result<()> {
        println!(rt;
            "{what}: {} kept, {} made, {} other answers",
            self.kept, self.made, self.others
        )?;
        Ok(())
    }
}

/// Times the events of a desk of so many pins, and reports the memory of so many entries of a journal.
pub fn measure_desk<R: Runtime + RandomSource>(
    rt: &R,
    alloc: Global,
    pins: u32,
    entries: u32,
) -> Result<()> {
    tell_clock(rt)?;
    let hasher = RandomState::new(rt)?;
    fill_journal(rt, alloc, hasher, entries)?;
    let mut desk = open(alloc, &backend(alloc, pins)?, JOURNAL, hasher)?;
    use_desk(rt, alloc, &mut desk, pins)
}

// Where a function owns a desk and makes many calls after which it would end, the prover takes minutes. So most are lent one.
fn open<S: BuildHasher + Drop>(
    alloc: Global,
    backend: &Backend,
    journal: u32,
    hasher: S,
) -> Result<Desk<S>> {
    Ok(Desk::open(alloc, backend, journal.max(1), hasher)?)
}

/// Takes an event to the desk. No clause says what is replied, which nobody here asks the prover.
fn step<S: BuildHasher>(desk: &mut Desk<S>, event: Event) -> Result<Reply> {
    Ok(desk.step(event)?)
}

/// Times the events of an empty desk for so many pins.
fn use_desk<S: BuildHasher, R: Runtime>(
    rt: &R,
    alloc: Global,
    desk: &mut Desk<S>,
    pins: u32,
) -> Result<()> {
    serve_new(rt, alloc, desk, 0, pins, "made, from empty on")?;
    serve_known(rt, alloc, desk, pins)?;
    whole_requests(rt, alloc, desk, pins)?;
    serve_new(rt, alloc, desk, pins, pins, "made, with a purge")?;
    take_sheets(rt, desk)?;
    move_pins(rt, alloc, desk)?;
    expire_all(rt, desk)
}

/// Requests with new keys, from the first number on.
fn serve_new<S: BuildHasher, R: Runtime>(
    rt: &R,
    alloc: Global,
    desk: &mut Desk<S>,
    first: u32,
    count: u32,
    what: &str,
) -> Result<()> {
    let mut times = Times::none();
    let mut answers = Answers::none();
    for batch in 0..count.div_ceil(BATCH) {
        let made = batch.saturating_mul(BATCH);
        let number = first.saturating_add(made);
        let events = requests(alloc, number, BATCH.min(count.saturating_sub(made)))?;
        serve_each(rt, desk, events, &mut times, &mut answers)?;
    }
    answers.tell(rt, what)?;
    times.tell(rt, what)
}

/// As many requests as there are pins, each with the key of one.
fn serve_known<S: BuildHasher, R: Runtime>(
    rt: &R,
    alloc: Global,
    desk: &mut Desk<S>,
    pins: u32,
) -> Result<()> {
    let mut times = Times::none();
    let mut answers = Answers::none();
    for batch in 0..pins.div_ceil(BATCH) {
        let drawn = batch.saturating_mul(BATCH);
        let count = BATCH.min(pins.saturating_sub(drawn));
        let events = drawn_requests(alloc, drawn, count, pins)?;
        serve_each(rt, desk, events, &mut times, &mut answers)?;
    }
    answers.tell(rt, "kept")?;
    times.tell(rt, "kept")
}

fn serve_each<S: BuildHasher, R: Runtime>(
    rt: &R,
    desk: &mut Desk<S>,
    events: Vec<Event>,
    times: &mut Times,
    answers: &mut Answers,
) -> Result<()> {
    for event in events {
        serve_one(rt, desk, event, times, answers)?;
    }
    Ok(())
}

fn serve_one<S: BuildHasher, R: Runtime>(
    rt: &R,
    desk: &mut Desk<S>,
    event: Event,
    times: &mut Times,
    answers: &mut Answers,
) -> Result<()> {
    let start = Instant::now(rt)?;
    let reply = step(desk, event)?;
    times.add(rt, start)?;
    answers.add(&reply);
    Ok(())
}

/// Whole requests, each of four events: an Expire, a Serve whose pin is there, an Open and a Close.
fn whole_requests<S: BuildHasher, R: Runtime>(
    rt: &R,
    alloc: Global,
    desk: &mut Desk<S>,
    pins: u32,
) -> Result<()> {
    let mut times = Times::none();
    let mut answers = Answers::none();
    for batch in 0..pins.div_ceil(BATCH) {
        let drawn = batch.saturating_mul(BATCH);
        let count = BATCH.min(pins.saturating_sub(drawn));
        let first = pins.saturating_add(drawn);
        let events = drawn_requests(alloc, first, count, pins)?;
        serve_whole(rt, desk, events, &mut times, &mut answers)?;
    }
    answers.tell(rt, "whole requests")?;
    times.tell(rt, "a whole request")
}

fn serve_whole<S: BuildHasher, R: Runtime>(
    rt: &R,
    desk: &mut Desk<S>,
    events: Vec<Event>,
    times: &mut Times,
    answers: &mut Answers,
) -> Result<()> {
    for event in events {
        whole_request(rt, desk, event, times, answers)?;
    }
    Ok(())
}

/// One request with its four events.
fn whole_request<S: BuildHasher, R: Runtime>(
    rt: &R,
    desk: &mut Desk<S>,
    event: Event,
    times: &mut Times,
    answers: &mut Answers,
) -> Result<()> {
    let start = Instant::now(rt)?;
    let reply = expire_and_serve(desk, event)?;
    open_and_close(desk, &reply)?;
    times.add(rt, start)?;
    answers.add(&reply);
    Ok(())
}

fn expire_and_serve<S: BuildHasher>(desk: &mut Desk<S>, event: Event) -> Result<Reply> {
    step(desk, Event::Expire(Moment::from_millis(0)))?;
    step(desk, event)
}

/// Opens and closes a connection to the server that was replied.
fn open_and_close<S: BuildHasher>(desk: &mut Desk<S>, reply: &Reply) -> Result<()> {
    let Reply::Served(server, _) = reply else {
        return Ok(());
    };
    step(desk, Event::Open(*server))?;
    step(desk, Event::Close(*server))?;
    Ok(())
}

/// Takes sheets, and prints how many groups and pins each has.
fn take_sheets<S: BuildHasher, R: Runtime>(rt: &R, desk: &mut Desk<S>) -> Result<()> {
    let mut times = Times::none();
    for _ in 0..SHEETS {
        let start = Instant::now(rt)?;
        let reply = step(desk, Event::Snapshot)?;
        times.add(rt, start)?;
        let sheet = sheet_of(reply)?;
        tell_sheet(rt, &sheet)?;
    }
    times.tell(rt, "a sheet")
}

fn tell_sheet(rt: &impl Runtime, sheet: &Sheet) -> Result<()> {
    let servers = sheet.servers().len();
    let groups = sheet.groups().len();
    println!(rt; "a sheet of {servers} servers, {groups} groups")?;
    Ok(())
}

fn sheet_of(reply: Reply) -> Result<Shared<Sheet>> {
    match reply {
        Reply::Sheet(sheet) => Ok(sheet),
        _ => bail!("no sheet"),
    }
}

/// A plan that can be installed, how many rows it has, and in how many microseconds it was made.
#[derive(Drop)]
struct MadePlan {
    install: Event,
    rows: usize,
    micros: u128,
}

/// Drains a server, and installs the plan for that.
fn move_pins<S: BuildHasher, R: Runtime>(rt: &R, alloc: Global, desk: &mut Desk<S>) -> Result<()> {
    let sheet = drained_sheet(desk)?;
    let MadePlan {
        install,
        rows,
        micros,
    } = make_plan(rt, alloc, &sheet)?;
    let (score, installed) = install_plan(rt, desk, install)?;
    println!(rt; "installed: {} of {} pins moved", score.moved, score.pins)?;
    eprintln!(rt; "a plan of {rows} rows: made in {micros} us, installed in {installed} us")?;
    Ok(())
}

/// The sheet once a server is drained.
fn drained_sheet<S: BuildHasher>(desk: &mut Desk<S>) -> Result<Shared<Sheet>> {
    let drain = Event::Command(Change {
        server: ServerId::new(0),
        setting: Setting::Admin(AdminState::Drain),
    });
    step(desk, drain)?;
    sheet_of(step(desk, Event::Snapshot)?)
}

/// Plans, and times it.
fn make_plan<R: Runtime>(rt: &R, alloc: Global, sheet: &Sheet) -> Result<MadePlan> {
    let start = Instant::now(rt)?;
    let plan = plan(alloc, sheet)?.into_plan();
    let micros = start.elapsed(rt)?.as_micros();
    let rows = plan.rows().len();
    let install = Event::Install(Shared::new(alloc, plan)?);
    Ok(MadePlan {
        install,
        rows,
        micros,
    })
}

/// Installs a plan: its score, and in how many microseconds.
fn install_plan<S: BuildHasher, R: Runtime>(
    rt: &R,
    desk: &mut Desk<S>,
    install: Event,
) -> Result<(Score, u128)> {
    let start = Instant::now(rt)?;
    let reply = step(desk, install)?;
    let micros = start.elapsed(rt)?.as_micros();
    match reply {
        Reply::Installed(score) => Ok((score, micros)),
        _ => bail!("the plan was refused"),
    }
}

/// Lets all pins go at once.
fn expire_all<S: BuildHasher, R: Runtime>(rt: &R, desk: &mut Desk<S>) -> Result<()> {
    let start = Instant::now(rt)?;
    let reply = step(desk, Event::Expire(Moment::from_millis(EXPIRE)))?;
    let micros = start.elapsed(rt)?.as_micros();
    let count = expired(&reply)?;
    println!(rt; "expired: {count} pins")?;
    eprintln!(rt; "expired in {micros} us")?;
    Ok(())
}

/// How many pins expired.
fn expired(reply: &Reply) -> Result<u64> {
    match reply {
        Reply::Expired(count) => Ok(*count),
        _ => bail!("nothing expired"),
    }
}

/// Fills a journal with so many requests of 100 keys, and reports its memory.
fn fill_journal<S: BuildHasher + Drop, R: Runtime>(
    rt: &R,
    alloc: Global,
    hasher: S,
    entries: u32,
) -> Result<()> {
    let backend = backend(alloc, 100)?;
    let before = resident(rt)?;
    let mut desk = open(alloc, &backend, entries, hasher)?;
    serve_100_keys(alloc, &mut desk, entries)?;
    tell_journal(rt, &desk, before, entries)
}

fn serve_100_keys<S: BuildHasher>(alloc: Global, desk: &mut Desk<S>, requests: u32) -> Result<()> {
    for batch in 0..requests.div_ceil(100) {
        let drawn = batch.saturating_mul(100);
        let count = requests.saturating_sub(drawn).min(100);
        for event in drawn_requests(alloc, drawn, count, 100)? {
            step(desk, event)?;
        }
    }
    Ok(())
}

/// Reports, for a journal of so many entries, by how much the resident memory has grown since it was `before`.
fn tell_journal<S: BuildHasher, R: Runtime>(
    rt: &R,
    desk: &Desk<S>,
    before: u64,
    entries: u32,
) -> Result<()> {
    let bytes = grown(rt, before, u64::from(entries))?;
    println!(rt; "a journal of {} entries", desk.journal().len())?;
    eprintln!(rt; "{bytes} bytes an entry, of requests alone")?;
    Ok(())
}

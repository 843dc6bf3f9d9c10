//! Each event at a desk that has four pins, two of them at a server that must be left.

use crate::farm::{A, B, C, FIRST, Hasher, TWO_MOVED, farm, request, server};
use crate::marks::{begin, end, tell};
use dual_cert::{read_plan, read_sheet};
use lb_desk_model::{Backend, Entry, Event, PinnedAs, Refusal, Reply, ServedAs, SetPin, Shared};
use lb_desk_ports::Refused;
use lb_desk_step::Desk;
use lb_types::{Moment, ServerSet};
use pin_set::{KeyText, PinId, PinKey, Score, TablePin};
use rise_fall::Flip;
use server_state::{AdminState, Change, Checked, Setting};
use std::alloc::{AllocError, Global};
use std::hash::{BuildHasherDefault, FoldHasher};
use std::process::Abort;
use std::test::Fail;

/// As many entries as the desk has when a test begins: the next one pushes out the first.
const JOURNAL: u32 = 6;

/// What the desk's pins are as a sheet. Each pin that was made and the server that must be left changed the view once.
const SHEET: &[u8] = b"stickysheet 1
version 5
server a off
server b cap 2
server c cap 2
group 2 a b,c
group 1 b b,c
group 1 c b,c
end
";

/// A best plan for that sheet.
const PLAN: &[u8] = b"stickyplan 1
version 5
server a off
server b cap 2 price 0
server c cap 2 price 0
row 1 a b b,c
row 1 a c b,c
row 1 b b b,c
row 1 c c b,c
end
";

/// What a call that is refused leaves as it was.
#[derive(Drop)]
struct Stand {
    pins: Vec<TablePin>,
    entries: Vec<Entry>,
    forgotten: u64,
    version: u64,
}

impl Stand {
    fn of(alloc: Global, desk: &Desk<Hasher>) -> Result<Stand, Fail> {
        let mut entries = Vec::new(alloc);
        for entry in desk.journal().iter() {
            entries.push(entry.clone()?)?;
        }
        Ok(Stand {
            pins: desk.table_rows(alloc)?,
            entries,
            forgotten: desk.journal_first(),
            version: desk.version(),
        })
    }

    fn is(&self, other: &Stand) -> bool {
        self.pins == other.pins
            && self.entries == other.entries
            && self.forgotten == other.forgotten
            && self.version == other.version
    }
}

/// A desk with pins at a, b, c and a, of which a must be left. The first pin was used once more.
fn desk(alloc: Global) -> Result<Desk<Hasher>, Fail> {
    let backend = farm(alloc)?;
    let mut desk = opened(alloc, &backend)?;
    fill(alloc, &mut desk)?;
    Ok(desk)
}

// Where a function owns a desk and makes many calls after which it would end, the prover takes minutes. So most lend one out.
fn opened(alloc: Global, backend: &Backend) -> Result<Desk<Hasher>, Fail> {
    let hasher = BuildHasherDefault::<FoldHasher>::new();
    Ok(Desk::open(alloc, backend, JOURNAL, hasher)?)
}

fn fill(alloc: Global, desk: &mut Desk<Hasher>) -> Result<(), Fail> {
    for (moment, key) in FIRST.iter().enumerate() {
        step(desk, Event::Serve(request(alloc, moment as u64, *key)?))?;
    }
    step(desk, set_a(AdminState::Drain))?;
    step(desk, Event::Serve(request(alloc, 4, "k1")?))?;
    Ok(())
}

/// Hands in an event. No clause says what is replied, which nobody here asks the prover.
fn step(desk: &mut Desk<Hasher>, event: Event) -> Result<Reply, Refused> {
    desk.step(event)
}

/// An operator's change of a.
fn set_a(state: AdminState) -> Event {
    Event::Command(Change {
        server: server(A),
        setting: Setting::Admin(state),
    })
}

/// Hands in the event, and where memory for it is wanting once more. The reply is the one that is owed.
fn takes(
    rt: &impl Abort,
    alloc: Global,
    desk: &mut Desk<Hasher>,
    event: Event,
    owed: &Reply,
) -> Result<(), Fail> {
    let again = event.clone()?;
    let before = Stand::of(alloc, desk)?;
    begin(alloc)?;
    let told = step(desk, event);
    end(alloc)?;
    let reply = match told {
        Ok(reply) => reply,
        Err(refused) => {
            is_as_before(rt, alloc, desk, &before, refused)?;
            step(desk, again)?
        }
    };
    assert_eq!(rt; reply, *owed);
    Ok(())
}

/// The same at a new desk.
fn takes_anew(rt: &impl Abort, alloc: Global, event: Event, owed: &Reply) -> Result<(), Fail> {
    let mut desk = desk(alloc)?;
    takes(rt, alloc, &mut desk, event, owed)
}

/// The same at a new desk that has taken this event.
fn takes_behind(
    rt: &impl Abort,
    alloc: Global,
    first: Event,
    event: Event,
    owed: &Reply,
) -> Result<(), Fail> {
    let mut desk = desk(alloc)?;
    step(&mut desk, first)?;
    takes(rt, alloc, &mut desk, event, owed)
}

fn is_as_before(
    rt: &impl Abort,
    alloc: Global,
    desk: &Desk<Hasher>,
    before: &Stand,
    refused: Refused,
) -> Result<(), Fail> {
    tell(alloc)?;
    assert_eq!(rt; refused, Refused::Memory);
    assert!(rt;
        Stand::of(alloc, desk)?.is(before),
        "a refused call changed something"
    );
    Ok(())
}

#[test]
fn a_request_that_makes_a_pin(rt: HostRuntime) -> Result<(), Fail> {
    let alloc = rt.alloc();
    let event = Event::Serve(request(alloc, 5, "k5")?);
    let owed = Reply::Served(server(B), ServedAs::Made);
    takes_anew(&rt, alloc, event, &owed)
}

#[test]
fn a_request_that_keeps_its_pin(rt: HostRuntime) -> Result<(), Fail> {
    let alloc = rt.alloc();
    let event = Event::Serve(request(alloc, 5, "k1")?);
    let owed = Reply::Served(server(A), ServedAs::Kept);
    takes_anew(&rt, alloc, event, &owed)
}

#[test]
fn a_request_that_moves_its_pin(rt: HostRuntime) -> Result<(), Fail> {
    let alloc = rt.alloc();
    let event = Event::Serve(request(alloc, 5, "k1")?);
    let owed = Reply::Served(server(B), ServedAs::Moved);
    takes_behind(&rt, alloc, set_a(AdminState::Maint), event, &owed)
}

fn named(alloc: Global, key: &str) -> Result<PinId, AllocError> {
    Ok(PinId {
        key: PinKey::Text(KeyText::copied_from(alloc, key.as_bytes())?),
        want: ServerSet::empty(),
    })
}

fn set(alloc: Global, key: &str, at: u8) -> Result<Event, AllocError> {
    Ok(Event::Set(SetPin {
        name: named(alloc, key)?,
        server: server(at),
        cost: 1,
        moment: Moment::from_millis(5),
    }))
}

// k1 is at a, and k5 isn't there.
#[test]
fn a_pin_that_is_set_or_cleared(rt: HostRuntime) -> Result<(), Fail> {
    let alloc = rt.alloc();
    let made = Reply::Pinned(PinnedAs::Made);
    takes_anew(&rt, alloc, set(alloc, "k5", B)?, &made)?;
    let moved = Reply::Pinned(PinnedAs::Moved);
    takes_anew(&rt, alloc, set(alloc, "k1", B)?, &moved)?;
    let kept = Reply::Pinned(PinnedAs::Kept);
    takes_anew(&rt, alloc, set(alloc, "k1", A)?, &kept)?;
    let clear = Event::Clear(named(alloc, "k1")?);
    takes_anew(&rt, alloc, clear, &Reply::Cleared)?;
    let clear = Event::Clear(named(alloc, "k5")?);
    takes_anew(&rt, alloc, clear, &Reply::NoPin)
}

// None of these needs memory. An Expire comes ten seconds after the last use of k2, k3 and k4, and a millisecond before those of k1
// are over. A server that has had no check is one failure from down.
#[test]
fn events_that_need_no_memory(rt: HostRuntime) -> Result<(), Fail> {
    let alloc = rt.alloc();
    let open = Event::Open(server(B));
    takes_anew(&rt, alloc, open, &Reply::Opened)?;
    let open = Event::Open(server(B));
    let close = Event::Close(server(B));
    takes_behind(&rt, alloc, open, close, &Reply::Closed)?;
    let expire = Event::Expire(Moment::from_millis(10003));
    takes_anew(&rt, alloc, expire, &Reply::Expired(3))?;
    let checked = Reply::Checked(Checked::Took(Flip::WentDown));
    let check = Event::Check(server(B), false);
    takes_anew(&rt, alloc, check, &checked)?;
    let command = set_a(AdminState::Maint);
    takes_anew(&rt, alloc, command, &Reply::Done)
}

#[test]
fn a_sheet(rt: HostRuntime) -> Result<(), Fail> {
    let alloc = rt.alloc();
    let owed = Reply::Sheet(Shared::new(alloc, read_sheet(alloc, SHEET)?)?);
    takes_anew(&rt, alloc, Event::Snapshot, &owed)
}

fn install(alloc: Global) -> Result<Event, Fail> {
    let plan = read_plan(alloc, PLAN)?;
    Ok(Event::Install(Shared::new(alloc, plan)?))
}

#[test]
fn the_install_of_a_plan(rt: HostRuntime) -> Result<(), Fail> {
    let alloc = rt.alloc();
    takes_anew(&rt, alloc, install(alloc)?, &Reply::Installed(TWO_MOVED))
}

// Where the install is refused b and c have one pin each, and get one more. Else they have two each, and a is left.
#[test]
fn room_behind_an_install(rt: HostRuntime) -> Result<(), Fail> {
    let alloc = rt.alloc();
    let event = install(alloc)?;
    let mut desk = desk(alloc)?;
    has_room_behind(&rt, alloc, &mut desk, event)
}

fn has_room_behind(
    rt: &impl Abort,
    alloc: Global,
    desk: &mut Desk<Hasher>,
    event: Event,
) -> Result<(), Fail> {
    begin(alloc)?;
    let told = step(desk, event);
    end(alloc)?;
    let mut owed = vec![in alloc; Reply::Refused(Refusal::NoServer)]?;
    if told.is_err() {
        tell(alloc)?;
        owed.insert(0, Reply::Served(server(C), ServedAs::Made))?;
        owed.insert(0, Reply::Served(server(B), ServedAs::Made))?;
    }
    for (key, owed) in ["k5", "k6", "k7"].iter().zip(&owed) {
        let reply = step(desk, Event::Serve(request(alloc, 5, *key)?))?;
        assert_eq!(rt; reply, *owed);
    }
    Ok(())
}

#[test]
fn a_plan_at_once(rt: HostRuntime) -> Result<(), Fail> {
    let alloc = rt.alloc();
    let mut desk = desk(alloc)?;
    plans_at_once(&rt, alloc, &mut desk)
}

fn plans_at_once(rt: &impl Abort, alloc: Global, desk: &mut Desk<Hasher>) -> Result<(), Fail> {
    let before = Stand::of(alloc, desk)?;
    begin(alloc)?;
    let told = plan_now(desk);
    end(alloc)?;
    let score = match told {
        Ok(score) => score,
        Err(refused) => {
            is_as_before(rt, alloc, desk, &before, refused)?;
            plan_now(desk)?
        }
    };
    assert_eq!(rt; score, TWO_MOVED);
    Ok(())
}

fn plan_now(desk: &mut Desk<Hasher>) -> Result<Score, Refused> {
    desk.plan_now()
}

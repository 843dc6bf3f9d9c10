//! The list of events, each with the reply that a backend owes it, as a journal would keep them.

use dual_cert::read_plan;
use lb_desk_model::{
    Entry, Event, PinnedAs, Refusal, Reply, Request, RuleList, ServedAs, SetPin, Shared,
};
use lb_types::{Moment, ServerId, ServerSet};
use pin_set::{KeyText, PinId, PinKey, Score};
use rise_fall::Flip;
use server_state::{AdminState, Change, Checked, Setting};
use std::alloc::Global;
use std::test::Fail;

/// How many entries there are. The last two ask for the same.
pub(crate) const COUNT: usize = 23;

/// The version after the last of them: two pins are made, `a` goes, and a plan moves a pin.
pub(crate) const VERSION: u64 = 4;

/// What a planner finds after `a` leaves, with the best plan: the pin that is at `a` goes to `b`.
const PLAN: &[u8] =
    b"stickyplan 1\nversion 3\nserver a off\nserver b cap 5 price 0\nrow 1 a b b\nrow 1 b b b\nend\n";

/// The same for a version that doesn't come.
const EARLY: &[u8] =
    b"stickyplan 1\nversion 9\nserver a off\nserver b cap 5 price 0\nrow 1 a b b\nrow 1 b b b\nend\n";

/// An event of each kind with a reply of each kind, at servers `a` and `b`. There is no server 7.
pub(crate) fn entries(alloc: Global) -> Result<Vec<Entry>, Fail> {
    let mut entries = Vec::new(alloc);
    for number in 0..COUNT {
        entries.push(entry(alloc, number)?)?;
    }
    Ok(entries)
}

fn entry(alloc: Global, number: usize) -> Result<Entry, Fail> {
    let [a, b, none] = [ServerId::new(0), ServerId::new(1), ServerId::new(7)];
    match number {
        0 => asked(alloc, 0, b"k1", &[], Reply::Served(a, ServedAs::Made)),
        1 => asked(alloc, 1, b"k2", &[], Reply::Served(b, ServedAs::Made)),
        2 => asked(alloc, 2, b"k1", &[], Reply::Served(a, ServedAs::Kept)),
        3 => asked(alloc, 3, b"", &[b, a], Reply::Served(b, ServedAs::Loose)),
        4 => asked(alloc, 3, b"", &[a, b], Reply::Served(a, ServedAs::Loose)),
        5 => asked(alloc, 4, b"", &[none], refused(Refusal::NoSuchServer)),
        16 => set_pin(alloc, b"k2", b, Reply::Pinned(PinnedAs::Kept)),
        17 => set_pin(alloc, b"k1", none, refused(Refusal::NoSuchServer)),
        18 => cleared(alloc, b"k9", Reply::NoPin),
        19 => shown(alloc),
        20 => installed(alloc, EARLY, refused(Refusal::Stale)),
        21 => installed(alloc, PLAN, Reply::Installed(score())),
        22 => installed(alloc, PLAN, refused(Refusal::Stale)),
        _ => Ok(steered(number, a, none)),
    }
}

/// A request with this key, where it isn't empty, whose rules name these servers.
fn asked(
    alloc: Global,
    moment: u64,
    key: &[u8],
    rules: &[ServerId],
    reply: Reply,
) -> Result<Entry, Fail> {
    let key = if key.is_empty() {
        None
    } else {
        Some(PinKey::Text(KeyText::copied_from(alloc, key)?))
    };
    let event = Event::Serve(Request {
        key,
        rules: RuleList::new(Vec::from_slice(alloc, rules)?),
        cost: 1,
        moment: Moment::from_millis(moment),
    });
    Ok(Entry { event, reply })
}

/// The name of the pin of this key that wants no servers.
fn named(alloc: Global, key: &[u8]) -> Result<PinId, Fail> {
    Ok(PinId {
        key: PinKey::Text(KeyText::copied_from(alloc, key)?),
        want: ServerSet::empty(),
    })
}

/// The pin of this key is set at the server.
fn set_pin(alloc: Global, key: &[u8], server: ServerId, reply: Reply) -> Result<Entry, Fail> {
    let event = Event::Set(SetPin {
        name: named(alloc, key)?,
        server,
        cost: 1,
        moment: Moment::from_millis(5),
    });
    Ok(Entry { event, reply })
}

fn cleared(alloc: Global, key: &[u8], reply: Reply) -> Result<Entry, Fail> {
    let event = Event::Clear(named(alloc, key)?);
    Ok(Entry { event, reply })
}

fn refused(refusal: Refusal) -> Reply {
    Reply::Refused(refusal)
}

fn installed(alloc: Global, text: &[u8], reply: Reply) -> Result<Entry, Fail> {
    let plan = read_plan(alloc, text)?;
    let event = Event::Install(Shared::new(alloc, plan)?);
    Ok(Entry { event, reply })
}

/// Both pins are placed, and one is moved at a cost of 1.
fn score() -> Score {
    Score {
        pins: 2,
        unplaced: 0,
        moved: 1,
        cost: 1,
    }
}

fn shown(alloc: Global) -> Result<Entry, Fail> {
    let sheet = read_plan(alloc, PLAN)?.sheet(alloc)?;
    Ok(Entry {
        event: Event::Snapshot,
        reply: Reply::Sheet(Shared::new(alloc, sheet)?),
    })
}

/// Connections, checks and commands at `a`, and at a server that is none. In maintenance `a` gets no results.
fn steered(number: usize, a: ServerId, none: ServerId) -> Entry {
    let (event, reply) = match number {
        6 => (Event::Open(none), refused(Refusal::NotServing)),
        7 => (Event::Close(none), refused(Refusal::NotOpen)),
        8 => (Event::Check(none, true), refused(Refusal::NoSuchServer)),
        9 => (set(none, AdminState::Drain), refused(Refusal::NoSuchServer)),
        10 => (Event::Open(a), Reply::Opened),
        11 => (Event::Close(a), Reply::Closed),
        12 => (Event::Expire(Moment::from_millis(7)), Reply::Expired(0)),
        13 => (
            Event::Check(a, true),
            Reply::Checked(Checked::Took(Flip::Stays)),
        ),
        14 => (set(a, AdminState::Maint), Reply::Done),
        _ => (Event::Check(a, false), Reply::Checked(Checked::Ignored)),
    };
    Entry { event, reply }
}

fn set(server: ServerId, state: AdminState) -> Event {
    Event::Command(Change {
        server,
        setting: Setting::Admin(state),
    })
}

//! The list of events at a running desk.

use crate::backends::two;
use crate::entries::{COUNT, VERSION, entries};
use lb_desk_model::{Entry, Event, Reply};
use lb_desk_step::Desk;
use std::hash::{BuildHasherDefault, FoldHasher};
use std::process::Abort;
use std::test::Fail;

type HashedDesk = Desk<BuildHasherDefault<FoldHasher>>;

#[test]
fn a_desk_answers_event_by_event(rt: HostRuntime) -> Result<(), Fail> {
    let entries = entries(rt.alloc())?;
    let hasher = BuildHasherDefault::<FoldHasher>::new();
    let backend = two(rt.alloc())?;
    // The journal keeps one entry.
    let mut desk = Desk::open(rt.alloc(), &backend, 1, hasher)?;
    compare(&rt, &entries, &mut desk)
}

// A function that has a desk of its own, and many calls after which it would end, takes the prover minutes. So it is lent out.
fn compare(rt: &impl Abort, entries: &[Entry], desk: &mut HashedDesk) -> Result<(), Fail> {
    for (number, entry) in entries.iter().enumerate() {
        let reply = told(desk, &entry.event)?;
        assert!(rt; reply == entry.reply, "event {number}");
    }
    assert_eq!(rt;
        (desk.version(), desk.journal_first()),
        (VERSION, COUNT as u64 - 1)
    );
    assert!(rt; desk.journal().last() == entries.last());
    Ok(())
}

/// The desk's reply to an event. No clause says what it is, which nobody here asks the prover.
fn told(desk: &mut HashedDesk, event: &Event) -> Result<Reply, Fail> {
    Ok(desk.step(event.clone()?)?)
}

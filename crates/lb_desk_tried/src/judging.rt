//! The journal of a desk that was closed, run again.

use lb_desk_model::{Backend, Event, Reply};
use lb_desk_ports::Refused;
use lb_desk_shared::Closing;
use lb_desk_step::run_world;
use std::alloc::Global;
use std::hash::{BuildHasherDefault, FoldHasher};

/// What is wrong with a journal.
#[derive(Clone, Copy, Debug, PartialEq, Eq)]
pub enum JournalFault {
    /// In some pass a later call has a smaller number.
    NotRising,
    /// Its first entries were forgotten, so it can't be run again.
    NotWhole,
    /// The entry of this number has another reply where its events are taken again, one after another.
    OtherReply(u64),
}

/// Has one desk of this backend take the journal's events again, one after another, and compares the replies. None where they are the
/// same.
pub fn judge(
    alloc: Global,
    backend: &Backend,
    closing: &Closing,
) -> Result<Option<JournalFault>, Refused> {
    if !closing.rising {
        return Ok(Some(JournalFault::NotRising));
    }
    if closing.journal.first() != 0 {
        return Ok(Some(JournalFault::NotWhole));
    }
    let events = events_of(alloc, closing)?;
    let hasher = BuildHasherDefault::<FoldHasher>::new();
    let replies = run_world(alloc, backend, events, hasher)?;
    Ok(other_reply(&replies, closing))
}

fn events_of(alloc: Global, closing: &Closing) -> Result<Vec<Event>, Refused> {
    let mut events = Vec::with_capacity(alloc, closing.journal.len())?;
    for entry in closing.journal.iter() {
        events.push(entry.event.clone()?)?;
    }
    Ok(events)
}

/// The first entry with another reply than this one.
fn other_reply(replies: &[Reply], closing: &Closing) -> Option<JournalFault> {
    let mut number = 0u64;
    for (reply, entry) in replies.iter().zip(closing.journal.iter()) {
        if *reply != entry.reply {
            return Some(JournalFault::OtherReply(number));
        }
        number = number.saturating_add(1);
    }
    None
}

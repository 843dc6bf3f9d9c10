//! Entries of a journal in short.

use lb_desk_model::{Entry, Event, PinnedAs, Refusal, Reply, ServedAs};
use std::process::Abort;

/// What an entry is.
#[derive(Clone, Copy, Debug, PartialEq, Eq)]
pub(crate) enum Kind {
    Expire,
    /// A request that made a pin.
    Made,
    /// A request whose pin stayed.
    Kept,
    /// A request whose pin moved.
    Moved,
    /// A pin that was set where it stands.
    SetKept,
    Open,
    Close,
    Check,
    Command,
    Snapshot,
    /// A plan that was stale.
    Stale,
    /// A plan whose moves were made.
    Installed,
    /// What no test asks for.
    Other,
}

fn kind_of(entry: &Entry) -> Kind {
    match &entry.event {
        Event::Serve(_) => served(&entry.reply),
        Event::Set(_) => set(&entry.reply),
        Event::Clear(_) => Kind::Other,
        Event::Open(_) => Kind::Open,
        Event::Close(_) => Kind::Close,
        Event::Expire(_) => Kind::Expire,
        Event::Check(_, _) => Kind::Check,
        Event::Command(_) => Kind::Command,
        Event::Snapshot => Kind::Snapshot,
        Event::Install(_) => installed(&entry.reply),
    }
}

fn served(reply: &Reply) -> Kind {
    match reply {
        Reply::Served(_, ServedAs::Made) => Kind::Made,
        Reply::Served(_, ServedAs::Kept) => Kind::Kept,
        Reply::Served(_, ServedAs::Moved) => Kind::Moved,
        _ => Kind::Other,
    }
}

fn set(reply: &Reply) -> Kind {
    match reply {
        Reply::Pinned(PinnedAs::Kept) => Kind::SetKept,
        _ => Kind::Other,
    }
}

fn installed(reply: &Reply) -> Kind {
    match reply {
        Reply::Installed(_) => Kind::Installed,
        Reply::Refused(Refusal::Stale) => Kind::Stale,
        _ => Kind::Other,
    }
}

/// Compares the entries with what they should be, one by one.
pub(crate) fn are(rt: &impl Abort, entries: &[Entry], kinds: &[Kind]) {
    assert_eq!(rt; entries.len(), kinds.len());
    for (entry, kind) in entries.iter().zip(kinds) {
        assert_eq!(rt; kind_of(entry), *kind);
    }
}

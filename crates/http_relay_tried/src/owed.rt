//! What is owed for a round.

use http_relay_dial::{Endpoint, Limits};
use http_relay_serve::Outcome;
use lb_desk_model::Entry;
use std::alloc::Global;

/// How a request ends before an answer of the relay's own goes out.
#[derive(Clone, Copy)]
pub(crate) struct End {
    pub(crate) due: Outcome,
    /// The client was sent `100 Continue`, if it took that.
    pub(crate) invited: bool,
    /// How many bytes of the response went to the client, if it took these.
    pub(crate) copied: usize,
    /// The least and the most bytes of the request that the server got.
    pub(crate) sent: (usize, usize),
    /// How many bytes of the client's body were wanted at most.
    pub(crate) wanted: usize,
}

impl End {
    /// An end of which neither client nor server has seen anything.
    pub(crate) fn unseen(due: Outcome) -> Self {
        End {
            due,
            invited: false,
            copied: 0,
            sent: (0, 0),
            wanted: 0,
        }
    }
}

/// An end with what the client got.
#[derive(Drop)]
pub(crate) struct Way {
    pub(crate) outcome: Outcome,
    pub(crate) got: Vec<u8>,
    pub(crate) sent: (usize, usize),
    /// How many bytes the client gave at most.
    pub(crate) given: usize,
}

/// What is owed for a round.
#[derive(Drop)]
pub(crate) struct Owed {
    /// The ways in which it may end: mostly one.
    pub(crate) ways: Vec<Way>,
    /// The backend that is asked, and what it is asked for with its replies.
    pub(crate) backend: Option<usize>,
    pub(crate) entries: Vec<Entry>,
    pub(crate) refusals: u64,
    /// The moments that the clock gives, and how often 50 ms pass.
    pub(crate) told: Vec<u64>,
    pub(crate) pauses: usize,
    /// What is dialled, and whether a connection comes of it.
    pub(crate) dial: Option<(Endpoint, Limits)>,
    pub(crate) is_connected: bool,
    /// All that the server would get.
    pub(crate) request: Vec<u8>,
}

impl Owed {
    /// Nothing yet.
    pub(crate) fn nothing(alloc: Global) -> Self {
        Owed {
            ways: Vec::new(alloc),
            backend: None,
            entries: Vec::new(alloc),
            refusals: 0,
            told: Vec::new(alloc),
            pauses: 0,
            dial: None,
            is_connected: false,
            request: Vec::new(alloc),
        }
    }
}

use crate::Roster;
use crossbeam_channel::Receiver;
use http_relay_system::Attended;

/// The place of a worker in the roster.
#[derive(Clone, Copy)]
pub struct Post<'a> {
    roster: &'a Roster,
    place: usize,
    /// How a worker on call is called while it rests.
    pub(crate) calls: Option<&'a Receiver<()>>,
}

impl<'a> Post<'a> {
    /// The post of a worker that is always at the line. Each has a place of its own, from 0 on.
    pub fn at_the_line(roster: &'a Roster, place: usize) -> Self {
        Post {
            roster,
            place,
            calls: None,
        }
    }

    /// The post of a worker on call, which rests while it isn't needed, until one of these calls comes.
    pub fn on_call(roster: &'a Roster, place: usize, calls: &'a Receiver<()>) -> Self {
        Post {
            roster,
            place,
            calls: Some(calls),
        }
    }

    pub(crate) fn is_on_call(&self) -> bool {
        self.calls.is_some()
    }

    /// Notes that a request begins.
    pub(crate) fn begin(&self) {
        self.roster.begin(self.place);
    }

    /// Notes that it has ended.
    pub(crate) fn end(&self) {
        self.roster.turn(self.place);
    }

    /// The client that the worker has in hand.
    pub(crate) fn client(&self) -> Option<&'a Attended> {
        self.roster.client(self.place)
    }

    /// Whether clients are cut off.
    pub(crate) fn is_over(&self) -> bool {
        match self.client() {
            Some(client) => client.is_over(),
            None => false,
        }
    }

    /// Whether this worker has to rest.
    pub(crate) fn is_surplus(&self) -> bool {
        self.roster.take_surplus()
    }

    pub(crate) fn lie_down(&self) {
        self.roster.lie_down();
    }

    pub(crate) fn rise(&self) {
        self.roster.rise();
    }
}

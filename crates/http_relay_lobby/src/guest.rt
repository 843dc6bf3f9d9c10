ghost use Rattle.std.specs.Prelude.{◌≡◌, ◌+◌, ◌≤◌, Some, length, vec_len};

use crate::Arrival;
use crate::search::Search;
use http_relay_head::HEAD_ROOM;
use http_relay_wire::WireFault;
use std::io::{ErrorKind, Read};

/// How often a guest is read at most where it is heard of. A head has no more bytes, and a read that gives none is the last, except
/// one that a signal cuts off.
const MOST_READS: u32 = 20_000;

/// A connection whose head isn't whole yet.
#[derive(Debug, Drop)]
pub(crate) struct Guest<S> {
    pub(crate) arrival: Arrival<S>,
    search: Search,
    /// The moment at which it was last heard of, in milliseconds, where the clock could be read.
    pub(crate) heard: Option<u64>,
}

/// What became of a guest that was read.
pub(crate) enum Heard<S> {
    /// Its head isn't whole.
    Stays(Guest<S>),
    /// A worker may judge it.
    Leaves(Arrival<S>),
    /// There is no memory for its bytes. This was its stream.
    Lost(S),
}

/// What one read says.
enum Step<S> {
    /// There may be more to read.
    Again(Guest<S>),
    /// There is nothing to read now.
    Waits(Guest<S>),
    Leaves(Arrival<S>),
    Lost(S),
}

impl<S: Read + Drop> Guest<S> {
    ghost use Rattle.http_relay_lobby.specs.Reads.{Grown, HeardIs, ReadOn, StepIs};

    /// The guest of a connection of which nothing was read yet.
    pub(crate) fn new(arrival: Arrival<S>, now: Option<u64>) -> Self {
        Guest {
            arrival,
            search: Search::Before,
            heard: now,
        }
    }

    /// Reads once what came, without waiting for more: its stream doesn't block.
    pub(crate) fn read_once(self, room: &mut [u8; HEAD_ROOM]) -> Heard<S>
        ensures { HeardIs (ReadOn S.remaining self.arrival) result }
    {
        match self.step(room) {
            Step::Again(guest) | Step::Waits(guest) => Heard::Stays(guest),
            Step::Leaves(arrival) => Heard::Leaves(arrival),
            Step::Lost(stream) => Heard::Lost(stream),
        }
    }

    /// Reads all that came, without waiting for more.
    pub(crate) fn read_all(self, room: &mut [u8; HEAD_ROOM]) -> Heard<S>
        ensures { HeardIs (ReadOn S.remaining self.arrival) result }
    {
        let mut guest = self;
        for _ in 0..MOST_READS {
            match guest.step(room) {
                Step::Again(same) => guest = same,
                Step::Waits(same) => return Heard::Stays(same),
                Step::Leaves(arrival) => return Heard::Leaves(arrival),
                Step::Lost(stream) => return Heard::Lost(stream),
            }
        }
        Heard::Leaves(guest.failed(WireFault::Broken))
    }

    /// The connection of a guest whose reading failed so.
    pub(crate) fn failed(self, fault: WireFault) -> Arrival<S>
        ensures { result ≡ record self.arrival { failed = Some fault } }
    {
        self.arrival.with_fault(fault)
    }

    /// Reads once.
    fn step(self, room: &mut [u8; HEAD_ROOM]) -> Step<S>
        ensures { StepIs (ReadOn S.remaining self.arrival) result }
    {
        let mut guest = self;
        let most = guest.arrival.room_left();
        match guest.arrival.stream.read(&mut room[..most]) {
            Ok(0) => Step::Leaves(guest.arrival),
            Ok(count) => guest.hear(&room[..count]),
            Err(error) => match error.kind() {
                ErrorKind::WouldBlock | ErrorKind::TimedOut => Step::Waits(guest),
                ErrorKind::Interrupted => Step::Again(guest),
                _ => Step::Leaves(guest.failed(WireFault::Broken)),
            },
        }
    }

    /// Takes these bytes, which were read.
    fn hear(self, bytes: &[u8]) -> Step<S>
        requires { vec_len self.arrival.head + length bytes.now ≤ HEAD_ROOM }
        ensures { StepIs (Grown bytes.now self.arrival) result }
    {
        let Guest {
            arrival,
            search,
            heard,
        } = self;
        let search = search.behind(bytes);
        let arrival = match arrival.with_read(bytes) {
            Ok(arrival) => arrival,
            Err(stream) => return Step::Lost(stream),
        };
        if search == Search::Found || arrival.room_left() == 0 {
            return Step::Leaves(arrival);
        }
        Step::Again(Guest {
            arrival,
            search,
            heard,
        })
    }
}

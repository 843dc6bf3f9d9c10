use http_relay_head::HEAD_ROOM;
use http_relay_socket::EagerStream;
use std::alloc::Global;
use std::collections::VecDeque;
use std::io::{ErrorKind, Read, Write};
use std::net::{OpenStream, Shutdown};
use std::time::{Clock, Duration, Instant};

/// How many milliseconds a client may take to close its connection.
const MOST_MILLIS: u64 = 1000;

/// The most bytes that are read and dropped of a connection at its end.
const MOST_DROPPED: u64 = 65536;

/// How many of them are looked at before each request.
const LOOKS_A_REQUEST: usize = 4;

/// How many connections a worker waits for at most. Where there are more the oldest is closed.
const MOST_LEAVERS: usize = 1024;

/// How many a worker on call waits for at most. There may be many such workers, and each allocates room for that many.
const FEW_LEAVERS: usize = 64;

/// A connection that was served, until its client closes it.
#[derive(Drop)]
struct Leaver<S> {
    stream: S,
    until: Instant,
    left: u64,
}

/// The connections that a worker has served, and whose clients haven't closed them yet. Its own direction of each is ended. They are
/// looked at between requests, so that no client holds up a worker by leaving late (RFC 9112, section 9.6).
#[derive(Drop)]
pub struct Leavers<S: Drop> {
    streams: VecDeque<Leaver<S>>,
    most: usize,
}

impl<S: Read + Write + OpenStream + Drop> Leavers<S> {
    /// None yet. It takes all its memory here; where that is refused a connection that there is no room for is closed at once.
    pub fn new(alloc: Global) -> Self {
        Leavers::of(alloc, MOST_LEAVERS)
    }

    /// The same for a worker on call, with less room.
    pub(crate) fn on_call(alloc: Global) -> Self {
        Leavers::of(alloc, FEW_LEAVERS)
    }

    fn of(alloc: Global, most: usize) -> Self {
        let mut streams = VecDeque::new(alloc);
        let _ = streams.reserve(most);
        Leavers { streams, most }
    }

    /// Whether all are gone.
    pub(crate) fn is_empty(&self) -> bool {
        self.streams.is_empty()
    }

    /// Looks at a few of them, the oldest first. The newest was served just now, so it isn't asked yet whether its client has left.
    pub(crate) fn look_at_older<R: Clock>(&mut self, rt: &R, room: &mut [u8; HEAD_ROOM]) {
        let older = self.streams.len().saturating_sub(1);
        self.look(rt, older.min(LOOKS_A_REQUEST), room);
    }

    /// Ends the own direction of the connection, and waits for its client beside others. One that can't be waited for is closed.
    pub(crate) fn add<R: Clock>(&mut self, rt: &R, client: EagerStream<S>) {
        let Ok(stream) = client.into_stream() else {
            return;
        };
        if stream.shutdown(Shutdown::Write).is_err() {
            return;
        }
        let Ok(now) = Instant::now(rt) else {
            return;
        };
        let Some(until) = now.checked_add(Duration::from_millis(MOST_MILLIS)) else {
            return;
        };
        if self.streams.len() >= self.most {
            drop(self.streams.pop_front());
        }
        let leaver = Leaver {
            stream,
            until,
            left: MOST_DROPPED,
        };
        let _ = self.streams.push_back(leaver);
    }

    /// Looks at so many of them, the oldest first, and closes those that are done.
    pub(crate) fn look<R: Clock>(&mut self, rt: &R, most: usize, room: &mut [u8; HEAD_ROOM]) {
        let now = Instant::now(rt).ok();
        for _ in 0..self.streams.len().min(most) {
            let Some(leaver) = self.streams.pop_front() else {
                break;
            };
            if let Some(leaver) = leaver.look(now, room) {
                let _ = self.streams.push_back(leaver);
            }
        }
    }
}

impl<S: Read + Drop> Leaver<S> {
    /// Reads and drops what came. None where the client has closed, or where it is time to close.
    fn look(self, now: Option<Instant>, room: &mut [u8; HEAD_ROOM]) -> Option<Self> {
        let mut leaver = self;
        match leaver.stream.read(room) {
            Ok(0) => None,
            Ok(count) => {
                leaver.left = leaver.left.saturating_sub(count as u64);
                (leaver.left > 0).then_some(leaver)
            }
            Err(error) if error.kind() == ErrorKind::WouldBlock => match now {
                Some(now) if now < leaver.until => Some(leaver),
                _ => None,
            },
            Err(_) => None,
        }
    }
}

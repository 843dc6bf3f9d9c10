use libc::net::{POLLERR, POLLHUP, SHUT_RDWR, poll, shutdown};
use libc::types::pollfd;
use std::os::fd::RawFd;
use std::sync::atomic::{AtomicBool, AtomicI32, AtomicU64, Ordering};
use std::sync::{Mutex, Wait};

/// The number of no descriptor, which `poll` passes over.
const NOBODY: RawFd = -1;

/// The client whose request a worker has in hand. If it resets its connection, or another thread cuts it off, the worker's wait for a
/// server ends. If it has left by the end of a pause in a server's queue, the server isn't dialled, and a wait that has a limit ends there.
///
/// A request costs a few atomic steps and an uncontended lock, a wait for a server two atomic steps.
#[derive(Drop)]
pub struct Attended {
    descriptor: AtomicI32,
    /// For how many milliseconds the client may hold up an end, or 0 for no limit.
    limit: AtomicU64,
    has_left: AtomicBool,
    /// Whether it was gone when it was looked at after a pause.
    was_gone: AtomicBool,
    /// Whether a server is waited for.
    waits: AtomicBool,
    /// The moment from which on no server was waited for at any look, or 0 if there was no such look.
    since: AtomicU64,
    /// For how many milliseconds the server may keep one call waiting, or 0 for no limit, or while there is no connection to it.
    server_limit: AtomicU64,
    /// The moment of the first look since the server was connected, or 0 if there was none.
    first: AtomicU64,
    /// Whether this client is cut off, and each that comes after it.
    is_over: AtomicBool,
    /// Held while the client is cut off, so that its descriptor isn't another file's by then.
    cutting: Mutex<()>,
}

impl Attended {
    /// Nobody yet.
    pub fn new() -> Self {
        Attended {
            descriptor: AtomicI32::new(NOBODY),
            limit: AtomicU64::new(0),
            has_left: AtomicBool::new(false),
            was_gone: AtomicBool::new(false),
            waits: AtomicBool::new(false),
            since: AtomicU64::new(0),
            server_limit: AtomicU64::new(0),
            first: AtomicU64::new(0),
            is_over: AtomicBool::new(false),
            cutting: Mutex::new(()),
        }
    }

    /// Attends to the client of this connection, which has to stay open until `end`. It may hold up an end for so many milliseconds;
    /// without a number, and at 0, for ever.
    pub fn begin(&self, client: RawFd, limit: Option<u32>) {
        self.has_left.store(false, Ordering::SeqCst);
        self.was_gone.store(false, Ordering::SeqCst);
        self.since.store(0, Ordering::SeqCst);
        self.server_limit.store(0, Ordering::SeqCst);
        self.limit
            .store(limit.map_or(0, u64::from), Ordering::SeqCst);
        self.descriptor.store(client, Ordering::SeqCst);
        if self.is_over() {
            self.has_left.store(true, Ordering::SeqCst);
            shutdown(client, SHUT_RDWR);
        }
    }

    /// Attends to nobody any more. While another thread cuts the client off it waits.
    pub fn end<R: Wait>(&self, rt: &R) {
        let _cutting = self.cutting.lock(rt);
        self.descriptor.store(NOBODY, Ordering::SeqCst);
    }

    /// Cuts the client off, if there is one, and each that comes after it: ends both directions of its connection. Any thread may do so.
    pub fn cut_off<R: Wait>(&self, rt: &R) {
        self.is_over.store(true, Ordering::SeqCst);
        self.shut_down(rt);
    }

    /// Looks, at this moment of an end that is under way, whether the client holds it up, and cuts it off if it has alone for longer than it
    /// may, or together with its server for longer than both may. The moments of looks are in milliseconds and rise from 1 on.
    pub fn cut_off_late<R: Wait>(&self, rt: &R, now: u64) {
        let limit = self.limit.load(Ordering::SeqCst);
        if self.descriptor() == NOBODY || limit == 0 {
            return;
        }
        let since = self.since.load(Ordering::SeqCst);
        let waits = since == 0 || self.waits.load(Ordering::SeqCst);
        if waits {
            self.since.store(now, Ordering::SeqCst);
        }
        let is_alone = !waits && now.saturating_sub(since) >= limit;
        if is_alone || self.is_drawn_out(now, limit) {
            self.shut_down(rt);
        }
    }

    // Whether client and server together have taken longer by now than both may. Each byte of a server begins its own limit again.
    fn is_drawn_out(&self, now: u64, limit: u64) -> bool {
        let server_limit = self.server_limit.load(Ordering::SeqCst);
        if server_limit == 0 {
            return false;
        }
        let first = self.first.load(Ordering::SeqCst);
        if first == 0 {
            self.first.store(now, Ordering::SeqCst);
            return false;
        }
        now.saturating_sub(first) >= limit.saturating_add(server_limit)
    }

    fn shut_down<R: Wait>(&self, rt: &R) {
        let _cutting = self.cutting.lock(rt);
        let client = self.descriptor();
        if client != NOBODY {
            shutdown(client, SHUT_RDWR);
        }
    }

    /// Whether clients are cut off.
    pub fn is_over(&self) -> bool {
        self.is_over.load(Ordering::SeqCst)
    }

    fn descriptor(&self) -> RawFd {
        self.descriptor.load(Ordering::SeqCst)
    }

    /// Notes that the client's server is connected, which may keep each call waiting for so many milliseconds; without a number, and at 0,
    /// for ever.
    pub(crate) fn note_server(&self, limit: Option<u32>) {
        self.first.store(0, Ordering::SeqCst);
        self.server_limit
            .store(limit.map_or(0, u64::from), Ordering::SeqCst);
    }

    /// Notes that a server is waited for from here on, or no longer.
    pub(crate) fn note_wait(&self, waits: bool) {
        self.waits.store(waits, Ordering::SeqCst);
    }

    /// Notes, after a pause, whether the client has left by now. It costs a system call.
    pub(crate) fn look(&self) {
        let mut asked = [self.watched()];
        let reported = poll(&mut asked, 0);
        if reported > 0 && has_left(asked[0].revents) {
            self.has_left.store(true, Ordering::SeqCst);
            self.was_gone.store(true, Ordering::SeqCst);
        }
    }

    /// Whether the client had left at a look.
    pub(crate) fn has_left(&self) -> bool {
        self.has_left.load(Ordering::SeqCst)
    }

    /// Whether the client was gone when it was looked at after a pause. One that is cut off before its first pause isn't.
    pub(crate) fn was_gone(&self) -> bool {
        self.was_gone.load(Ordering::SeqCst)
    }

    /// Has `poll` report if the client leaves, and nothing else.
    pub(crate) fn watched(&self) -> pollfd {
        watched(self.descriptor())
    }
}

/// The same for nobody.
pub(crate) fn nobody() -> pollfd {
    watched(NOBODY)
}

fn watched(client: RawFd) -> pollfd {
    pollfd {
        fd: client,
        events: 0,
        revents: 0,
    }
}

/// Whether a client with this report has reset its connection, or was cut off. One that ended its own direction alone has not.
pub(crate) fn has_left(reported: i16) -> bool {
    reported & (POLLERR | POLLHUP) != 0
}

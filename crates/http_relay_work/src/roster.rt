use http_relay_system::Attended;
use std::alloc::{AllocError, Global};
use std::sync::Wait;
use std::sync::atomic::{AtomicBool, AtomicU64, AtomicUsize, Ordering};
use std::thread::Parker;

/// The most workers that may be on call, with the `tune.relays` that are always at the line.
pub const MOST_ON_CALL: usize = 2048;

/// What all workers of a balancer share with the thread that calls some of them.
///
/// A worker counts the begins and ends of its requests in a number of its own, which costs two atomic steps a request. Everything else
/// is written only when a worker begins, rests, is called or ends.
#[derive(Drop)]
pub struct Roster {
    /// How often each worker has begun or ended a request, by its place. The number is odd while it has one.
    turns: Vec<AtomicU64>,
    /// The client that each worker has in hand, by its place.
    clients: Vec<Attended>,
    /// How many workers are at the line or have a request.
    present: AtomicUsize,
    /// How many workers on call rest.
    resting: AtomicUsize,
    /// How many workers on call must rest after their requests.
    surplus: AtomicUsize,
    /// Whether the workers are watched. If they aren't, the begin of a request rings.
    is_watched: AtomicBool,
    bell: Parker,
}

impl Roster {
    /// The roster of so many workers that are always at the line, and of those on call. It allocates all its memory here. The only error
    /// is out of memory.
    pub fn new(alloc: Global, relays: u8) -> Result<Self, AllocError> {
        let most = usize::from(relays) + MOST_ON_CALL;
        let mut turns = Vec::with_capacity(alloc, most)?;
        let mut clients = Vec::with_capacity(alloc, most)?;
        for _ in 0..most {
            turns.push(AtomicU64::new(0))?;
            clients.push(Attended::new())?;
        }
        Ok(Roster {
            turns,
            clients,
            present: AtomicUsize::new(0),
            resting: AtomicUsize::new(0),
            surplus: AtomicUsize::new(0),
            is_watched: AtomicBool::new(false),
            bell: Parker::new(),
        })
    }

    /// Notes that one worker more is at the line. Whatever starts it says so before.
    pub fn enter(&self) {
        self.present.fetch_add(1, Ordering::SeqCst);
    }

    /// Notes that a worker has ended, or couldn't begin.
    pub fn leave(&self) {
        self.present.fetch_sub(1, Ordering::SeqCst);
    }

    /// Whether no worker is left, at the line or at rest.
    pub fn is_empty(&self) -> bool {
        self.present.load(Ordering::SeqCst) == 0 && self.resting.load(Ordering::SeqCst) == 0
    }

    /// Cuts off the clients of all requests under way, and those that are still in the line.
    pub fn cut_off<R: Wait>(&self, rt: &R) {
        for client in &self.clients {
            client.cut_off(rt);
        }
    }

    /// Cuts off the clients that hold up an end for longer than they may, alone or with their servers, at this moment of the end in
    /// milliseconds. Looks at rising moments from 1 on find them. A look costs a few atomic steps for each worker.
    pub fn cut_off_late<R: Wait>(&self, rt: &R, now: u64) {
        for client in &self.clients {
            client.cut_off_late(rt, now);
        }
    }

    /// Has the workers looked at, if the thread that watches sleeps.
    pub fn ring(&self) {
        self.bell.unpark();
    }

    /// Notes that a worker at rest is called, if there is one. Only one thread may call.
    pub fn call_resting(&self) -> bool {
        let rests = self.resting.load(Ordering::SeqCst) > 0;
        if rests {
            self.rise();
        }
        rests
    }

    /// How often the worker of this place has begun or ended a request. It is odd while it has one.
    pub(crate) fn turns(&self, place: usize) -> Option<u64> {
        let turns = self.turns.get(place)?;
        Some(turns.load(Ordering::SeqCst))
    }

    /// The client that the worker of this place has in hand.
    pub(crate) fn client(&self, place: usize) -> Option<&Attended> {
        self.clients.get(place)
    }

    pub(crate) fn places(&self) -> usize {
        self.turns.len()
    }

    pub(crate) fn present(&self) -> usize {
        self.present.load(Ordering::SeqCst)
    }

    /// Has so many workers on call rest after their requests.
    pub(crate) fn set_surplus(&self, count: usize) {
        self.surplus.store(count, Ordering::SeqCst);
    }

    /// Sleeps until a request begins or the bell rings, unless a request began after the last look.
    pub(crate) fn sleep<R: Wait>(&self, rt: &R, seen: &[u64]) {
        self.is_watched.store(false, Ordering::SeqCst);
        if self.is_as(seen) {
            self.bell.park(rt);
        }
        self.is_watched.store(true, Ordering::SeqCst);
    }

    /// Whether each of these places is as it was seen last.
    fn is_as(&self, seen: &[u64]) -> bool {
        self.turns
            .iter()
            .zip(seen)
            .all(|(turns, seen)| turns.load(Ordering::SeqCst) == *seen)
    }

    /// Notes that the worker of this place begins a request.
    pub(crate) fn begin(&self, place: usize) {
        self.turn(place);
        if !self.is_watched.load(Ordering::SeqCst) {
            self.ring();
        }
    }

    /// Notes that the worker of this place begins a request, or ends one.
    pub(crate) fn turn(&self, place: usize) {
        if let Some(turns) = self.turns.get(place) {
            turns.fetch_add(1, Ordering::SeqCst);
        }
    }

    /// Says whether one worker more must rest. No other one is then asked to rest in its place.
    pub(crate) fn take_surplus(&self) -> bool {
        let count = self.surplus.load(Ordering::SeqCst);
        count > 0
            && self
                .surplus
                .compare_exchange(count, count - 1, Ordering::SeqCst, Ordering::SeqCst)
                .is_ok()
    }

    /// Notes that a worker on call rests.
    pub(crate) fn lie_down(&self) {
        self.resting.fetch_add(1, Ordering::SeqCst);
        self.present.fetch_sub(1, Ordering::SeqCst);
    }

    /// Notes that one that rested is at the line again.
    pub(crate) fn rise(&self) {
        self.resting.fetch_sub(1, Ordering::SeqCst);
        self.present.fetch_add(1, Ordering::SeqCst);
    }
}

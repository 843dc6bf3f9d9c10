//! The line in which connections wait for workers: a lane for each listener, from which workers take in turn.
use crate::Arrival;
use crossbeam_channel::{Receiver, Sender, TryRecvError, TrySendError, bounded};
use std::alloc::{AllocError, Global};
use std::sync::atomic::{AtomicBool, AtomicUsize, Ordering};
use std::sync::{Arc, Wait};

/// How many connections wait for a worker at most, in all lanes together, if there are no more than 64 of them.
pub const MAX_WAITING: usize = 1024;

/// How many connections may wait in each lane, however many lanes there are.
const LEAST_IN_A_LANE: usize = 16;

/// The end of the line at which workers take connections. Each worker has a copy.
///
/// For each connection in a lane there is a word in `words`, which is put there after it. So a worker that takes a word finds a connection.
#[derive(Drop)]
pub struct WaitingLine<S: Drop> {
    words: Receiver<()>,
    lanes: Vec<Receiver<Arrival<S>>>,
    /// The lane at which the last look began.
    turn: AtomicUsize,
}

/// A listener's own end of the line.
#[derive(Drop)]
pub struct Lane<S: Drop> {
    words: Sender<()>,
    to: Sender<Arrival<S>>,
    place: usize,
    crowds: Arc<Crowds>,
}

/// What listeners know of one another, by their places.
#[derive(Drop)]
struct Crowds {
    /// How many guests each one has.
    guests: Vec<AtomicUsize>,
    /// Whether another listener needs a file that a guest of this one has.
    wanted: Vec<AtomicBool>,
}

impl Crowds {
    /// Those of so many listeners, without a guest. The only error is out of memory.
    fn new(alloc: Global, listeners: usize) -> Result<Self, AllocError> {
        let mut guests = Vec::with_capacity(alloc, listeners)?;
        let mut wanted = Vec::with_capacity(alloc, listeners)?;
        for _ in 0..listeners {
            guests.push(AtomicUsize::new(0))?;
            wanted.push(AtomicBool::new(false))?;
        }
        Ok(Crowds { guests, wanted })
    }

    /// The place of the listener with the most guests, if it has more than so many.
    fn most(&self, than: usize) -> Option<usize> {
        let mut most = than;
        let mut found = None;
        for (place, guests) in self.guests.iter().enumerate() {
            let count = guests.load(Ordering::SeqCst);
            if count > most {
                most = count;
                found = Some(place);
            }
        }
        found
    }
}

/// The line of so many listeners: their lanes, and the end for workers. It takes all its memory here; the only error is out of memory.
///
/// At most 1024 connections wait in it, and in each lane as many as its share is. Workers take from the lanes in turn, and from each in
/// its order. So a listener with many clients delays those of another one by no more than one each.
pub fn waiting_line<S: Drop>(
    alloc: Global,
    listeners: usize,
) -> Result<(Vec<Lane<S>>, WaitingLine<S>), AllocError> {
    let room = room_of_a_lane(listeners);
    let (to_words, words) = bounded(alloc, room.saturating_mul(listeners.max(1)))?;
    let crowds = Arc::new(alloc, Crowds::new(alloc, listeners)?)?;
    let mut starts = Vec::with_capacity(alloc, listeners)?;
    let mut lanes = Vec::with_capacity(alloc, listeners)?;
    for place in 0..listeners {
        let (to, from) = bounded(alloc, room)?;
        lanes.push(from)?;
        starts.push(Lane {
            words: to_words.clone()?,
            to,
            place,
            crowds: Arc::try_clone(&crowds)?,
        })?;
    }
    let turn = AtomicUsize::new(0);
    Ok((starts, WaitingLine { words, lanes, turn }))
}

/// How many connections may wait in each of so many lanes: a fair share, and at least 16.
fn room_of_a_lane(lanes: usize) -> usize {
    let share = MAX_WAITING / lanes.max(1);
    share.max(LEAST_IN_A_LANE)
}

impl<S: Drop> WaitingLine<S> {
    /// One more end for a worker. The only error is out of memory.
    pub fn copy(&self, alloc: Global) -> Result<Self, AllocError> {
        let mut lanes = Vec::with_capacity(alloc, self.lanes.len())?;
        for lane in &self.lanes {
            lanes.push(lane.clone()?)?;
        }
        Ok(WaitingLine {
            words: self.words.clone()?,
            lanes,
            turn: AtomicUsize::new(0),
        })
    }

    /// Where a word comes for each connection. It ends after the last one, once all listeners are gone.
    pub fn words(&self) -> &Receiver<()> {
        &self.words
    }

    /// How many connections wait.
    pub fn len(&self) -> usize {
        self.words.len()
    }

    /// Whether none waits.
    pub fn is_empty(&self) -> bool {
        self.words.is_empty()
    }

    /// The connection for a word that was taken: the first of the lane after the one from which this worker took last, or of the next
    /// that isn't empty. None only if all lanes have ended.
    pub fn take<R: Wait>(&self, rt: &R) -> Option<Arrival<S>> {
        let first = self.turn.fetch_add(1, Ordering::SeqCst);
        for _ in rt.forever() {
            match self.look(rt, first) {
                Ok(arrival) => return Some(arrival),
                // Another worker is about to take one, and there are others.
                Err(TryRecvError::Empty) => {}
                Err(TryRecvError::Disconnected) => break,
            }
        }
        None
    }

    /// Looks into each lane once, this one first. The error says whether there are lanes that haven't ended.
    fn look<R: Wait>(&self, rt: &R, first: usize) -> Result<Arrival<S>, TryRecvError> {
        let count = self.lanes.len();
        let mut error = TryRecvError::Disconnected;
        for step in 0..count {
            let place = (first % count).saturating_add(step) % count;
            match self.lanes[place].try_recv(rt) {
                Ok(arrival) => return Ok(arrival),
                Err(TryRecvError::Empty) => error = TryRecvError::Empty,
                Err(TryRecvError::Disconnected) => {}
            }
        }
        Err(error)
    }
}

impl<S: Drop> Lane<S> {
    /// Puts the connection into the lane, if that has room; else it is given back.
    pub fn try_send<R: Wait>(
        &self,
        rt: &R,
        arrival: Arrival<S>,
    ) -> Result<(), TrySendError<Arrival<S>>> {
        self.to.try_send(rt, arrival)?;
        // There is room for a word for each. A receiver that is late with its own may hold this up for a moment.
        let _ = self.words.send(rt, ());
        Ok(())
    }

    /// How many connections wait in this lane.
    pub(crate) fn waiting(&self) -> usize {
        self.to.len()
    }

    /// Notes how many guests this listener has.
    pub(crate) fn note_guests(&self, count: usize) {
        if let Some(guests) = self.crowds.guests.get(self.place) {
            guests.store(count, Ordering::SeqCst);
        }
    }

    /// Asks the listener with the most guests to let some go, since this one needs a file and has so many guests. Says whether there is
    /// one with more.
    pub(crate) fn ask_for_file(&self, own_guests: usize) -> bool {
        let Some(place) = self.crowds.most(own_guests) else {
            return false;
        };
        if let Some(wanted) = self.crowds.wanted.get(place) {
            wanted.store(true, Ordering::SeqCst);
        }
        true
    }

    /// Whether another listener needs a file of a guest. One that sees so lets some go.
    pub(crate) fn is_asked_for_file(&self) -> bool {
        match self.crowds.wanted.get(self.place) {
            Some(wanted) => wanted.load(Ordering::SeqCst) && wanted.swap(false, Ordering::SeqCst),
            None => false,
        }
    }
}

//! The order of last use, as a log of places with holes.
ghost use Rattle.std.specs.Prelude.{◌≡◌, ◌+◌, ◌-◌, ◌^◌, ◌<◌, ◌≤◌, ◌↔◌, [], ◌∷◌, ◌++◌, IsTrue, IfOk, OnOk, length, slice_get, slice_set};
ghost use Rattle.std.specs.VecDeque.{deque_capacity};

use std::alloc::{AllocError, Global};
use std::collections::VecDeque;

/// A place that no entry has: what is in the log where a place was taken out.
pub(crate) const HOLE: u32 = 0xFFFF_FFFF;

/// Places in order of last use, oldest first. The first has the number `first`, each later one the next.
///
/// A place is taken out of the middle by leaving a hole, so that the others keep their numbers.
#[derive(Drop)]
pub(crate) struct Log {
    places: VecDeque<u32>,
    first: u64,
}

impl Log {
    pub(crate) fn new(alloc: Global) -> Self
        ensures places { result.places.items ≡ [] }
        ensures first { result.first ≡ 0 }
    {
        Log {
            places: VecDeque::new(alloc),
            first: 0,
        }
    }

    /// The number that the next place gets.
    pub(crate) fn end(&self) -> u64
        requires { self.now.first + length self.now.places.items < 2 ^ 64 }
        ensures { result ≡ self.now.first + length self.now.places.items }
    {
        self.first + self.places.len() as u64
    }

    /// How many places and holes there are.
    pub(crate) fn len(&self) -> usize
        ensures { result ≡ length self.now.places.items }
    {
        self.places.len()
    }

    /// Whether one place more would need memory.
    pub(crate) fn is_full(&self) -> bool
        ensures { IsTrue result ↔ (deque_capacity self.now.places ≤ length self.now.places.items) }
    {
        self.places.capacity() <= self.places.len()
    }

    /// How many places and holes fit without memory.
    pub(crate) fn capacity(&self) -> usize
        ensures { result ≡ deque_capacity self.now.places }
    {
        self.places.capacity()
    }

    pub(crate) fn front(&self) -> Option<u32>
        ensures { result ≡ slice_get self.now.places.items 0 }
    {
        self.places.front().copied()
    }

    /// A copy of the places and holes, oldest first.
    pub(crate) fn copy(&self, alloc: Global) -> Result<Vec<u32>, AllocError>
        ensures { IfOk result (λ places. places.items ≡ self.now.places.items) }
    {
        let (first, rest) = self.places.as_slices();
        let mut places = Vec::with_capacity(alloc, self.places.len())?;
        places.extend_from_slice(first)?;
        places.extend_from_slice(rest)?;
        Ok(places)
    }

    /// Makes room for `additional` more.
    pub(crate) fn reserve(&mut self, additional: usize) -> Result<(), AllocError>
        ensures places { self.new.places.items ≡ self.old.places.items }
        ensures first { self.new.first ≡ self.old.first }
        ensures capacity { deque_capacity self.old.places ≤ deque_capacity self.new.places }
        ensures ok { OnOk result (length self.new.places.items + additional ≤ deque_capacity self.new.places) }
    {
        self.places.reserve(additional)
    }

    pub(crate) fn push(&mut self, place: u32)
        requires { length self.old.places.items < deque_capacity self.old.places }
        ensures places { self.new.places.items ≡ self.old.places.items ++ place ∷ [] }
        ensures first { self.new.first ≡ self.old.first }
        ensures capacity { deque_capacity self.new.places ≡ deque_capacity self.old.places }
    {
        self.places.push_back_reserved(place);
    }

    /// Takes the first place or hole out. The others keep their numbers.
    pub(crate) fn pop(&mut self) -> u32
        requires some { 0 < length self.old.places.items }
        requires fits { self.old.first + 1 < 2 ^ 64 }
        ensures places { self.old.places.items ≡ result ∷ self.new.places.items }
        ensures first { self.new.first ≡ self.old.first + 1 }
        ensures capacity { deque_capacity self.new.places ≡ deque_capacity self.old.places }
    {
        self.first += 1;
        self.places.pop_front().unwrap()
    }

    /// Takes all places and holes out. The room that they had stays.
    pub(crate) fn clear(&mut self)
        ensures places { self.new.places.items ≡ [] }
        ensures first { self.new.first ≡ self.old.first }
        ensures capacity { deque_capacity self.new.places ≡ deque_capacity self.old.places }
    {
        self.places.clear();
    }

    /// Writes a place, or a hole, under a number that the log has.
    pub(crate) fn put(&mut self, number: u64, place: u32)
        requires from_first { self.old.first ≤ number }
        requires below_end { number < self.old.first + length self.old.places.items }
        ensures places { self.new.places.items ≡ slice_set self.old.places.items (number - self.old.first) place }
        ensures first { self.new.first ≡ self.old.first }
        ensures capacity { deque_capacity self.new.places ≡ deque_capacity self.old.places }
    {
        let at = (number - self.first) as usize;
        self.places[at] = place;
    }
}

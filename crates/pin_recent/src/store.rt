//! Pairs at places of a map, with the log of their last uses.
ghost use Rattle.std.specs.Prelude.{◌≡◌, ℕ, ◌+◌, ◌-◌, ◌*◌, ◌^◌, ◌<◌, ◌≤◌, Bool, [], ◌∷◌, ◌++◌, Some, OnOk, OnErr, IfOk, IfErr, IfSome, IfNone, length, slice_get, option_to_list};
ghost use Rattle.std.specs.Map.{lookup, remove_entry};
ghost use Rattle.std.specs.Option.{option_copied, option_map};
ghost use Rattle.std.specs.VecDeque.{deque_capacity};
ghost use Rattle.indexmap.specs.IndexMap.{spare};
ghost use Rattle.pin_recent.specs.Recent.{MayChange, touched};
ghost use Rattle.pin_recent.specs.Sound.{Ordered, Trim, Tied, OnlyAt, Nowhere, IsPassed, bare, numbers, stored, next_number, spent, settled, turned};

use crate::change::Change;
use crate::copy::RecentCopy;
use crate::log::{HOLE, Log};
use crate::room::CopyRoom;
use crate::stamped::Stamped;
use indexmap::IndexMap;
use std::alloc::{AllocError, AllocFailed, Global};
use std::hash::{BuildHasher, Hash};
use std::mem;

/// With so many pairs there is no place for one more.
const MOST: usize = 0xFFFF_FFFE;

/// A map whose entries carry the numbers that their places have in the log.
#[derive(Drop)]
pub(crate) struct Store<K: Eq + Hash, V, S: BuildHasher> {
    pub(crate) map: IndexMap<K, Stamped<V>, S>,
    pub(crate) log: Log,
}

impl<K: Eq + Hash, V, S: BuildHasher> Store<K, V, S> {
    pub(crate) fn new(alloc: Global, hasher: S) -> Self
        ensures ordered { Ordered result }
        ensures trim { Trim result }
        ensures stored { stored result ≡ [] }
        ensures next { next_number result ≡ 0 }
    {
        Store {
            map: IndexMap::with_hasher(alloc, hasher),
            log: Log::new(alloc),
        }
    }

    /// How many pairs there are.
    pub(crate) fn len(&self) -> usize
        requires { Ordered self.now }
        ensures { result ≡ length (stored self.now) }
    {
        self.map.len()
    }

    /// The value of a key.
    pub(crate) fn find(&self, key: &K) -> Option<&V>
        requires ordered { Ordered self.now }
        ensures { option_copied result ≡ lookup (K.eq key.now) (stored self.now) }
    {
        let place = self.map.get_index_of(key)?;
        Some(&self.map[place].value)
    }

    /// The place of a key.
    pub(crate) fn place_of(&self, key: &K) -> Option<usize>
        ensures found { IfSome result (λ place. OnlyAt (K.eq key.now) place (bare self.now.map.entries)) }
        ensures within { IfSome result (λ place. place < length self.now.map.entries) }
        ensures absent { IfNone result (Nowhere (K.eq key.now) (bare self.now.map.entries)) }
    {
        self.map.get_index_of(key)
    }

    /// The first place of the log goes to its end, under a new number. A hole goes away.
    fn turn(&mut self)
        requires tied { Tied self.old.log.first self.old.log.places.items (numbers self.old.map.entries) }
        requires few { length self.old.map.entries < 4294967295 }
        requires some { 0 < length self.old.log.places.items }
        requires fits { next_number self.old < 2 ^ 64 }
        ensures tied { Tied self.new.log.first self.new.log.places.items (numbers self.new.map.entries) }
        ensures places { self.new.log.places.items ≡ turned (length self.old.map.entries) self.old.log.places.items }
        ensures first { self.new.log.first ≡ self.old.log.first + 1 }
        ensures capacity { deque_capacity self.new.log.places ≡ deque_capacity self.old.log.places }
        ensures pairs { bare self.new.map.entries ≡ bare self.old.map.entries }
        ensures len { length self.new.map.entries ≡ length self.old.map.entries }
    {
        let number = self.log.end();
        let place = self.log.pop();
        if (place as usize) < self.map.len() {
            let (_, stamped) = self.map.pair_mut(place as usize);
            stamped.number = number;
            self.log.push(place);
        }
    }

    /// Closes the holes of a log that is full, so that one place more fits. It costs a step for each place of the log. At least half
    /// of them were holes, so it is a few steps for each touch since the last time.
    fn make_room(&mut self)
        requires ordered { Ordered self.old }
        requires trim { Trim self.old }
        requires fits { spent self.old < 2 ^ 64 + length self.old.map.entries }
        requires capacity { 0 < deque_capacity self.old.log.places }
        ensures ordered { Ordered self.new }
        ensures trim { Trim self.new }
        ensures room { length self.new.log.places.items < deque_capacity self.new.log.places }
        ensures capacity { deque_capacity self.new.log.places ≡ deque_capacity self.old.log.places }
        ensures stored { stored self.new ≡ stored self.old }
        ensures pairs { bare self.new.map.entries ≡ bare self.old.map.entries }
        ensures len { length self.new.map.entries ≡ length self.old.map.entries }
        ensures spent { spent self.new ≤ spent self.old }
    {
        if !self.log.is_full() {
            return;
        }
        let count = self.log.len();
        for i in 0..count {
            self.turn();
        }
    }

    /// Takes the holes off the front of the log.
    fn trim(&mut self)
        requires ordered { Ordered self.old }
        requires fits { next_number self.old < 2 ^ 64 }
        ensures ordered { Ordered self.new }
        ensures trim { Trim self.new }
        ensures stored { stored self.new ≡ stored self.old }
        ensures len { length self.new.map.entries ≡ length self.old.map.entries }
        ensures spent { spent self.new ≤ spent self.old }
    {
        while let Some(place) = self.log.front() {
            if (place as usize) < self.map.len() {
                break;
            }
            self.log.pop();
        }
    }

    /// Gives the pair at a place a new value, puts it last, and answers its old value.
    pub(crate) fn touch_at(&mut self, place: usize, value: V) -> V
        requires ordered { Ordered self.old }
        requires trim { Trim self.old }
        requires within { place < length self.old.map.entries }
        requires fits { spent self.old + 1 < 2 ^ 64 + length self.old.map.entries }
        ensures ordered { Ordered self.new }
        ensures trim { Trim self.new }
        ensures old { (test : K → Bool) → OnlyAt test place (bare self.old.map.entries) → lookup test (stored self.old) ≡ Some result }
        ensures stored { (test : K → Bool) → OnlyAt test place (bare self.old.map.entries) → stored self.new ≡ touched test value (stored self.old) }
        ensures len { length self.new.map.entries ≡ length self.old.map.entries }
        ensures spent { spent self.new ≤ spent self.old + 2 }
    {
        self.make_room();
        let number = self.log.end();
        let (_, stamped) = self.map.pair_mut(place);
        let old = mem::replace(stamped, Stamped { value, number });
        let Stamped {
            value: old_value,
            number: old_number,
        } = old;
        self.log.put(old_number, HOLE);
        self.log.push(place as u32);
        self.trim();
        old_value
    }

    /// Writes into the log where the entry stands that a removal moved to this place, if one was.
    fn settle(&mut self, place: u32)
        requires in_log { (number : ℕ) → slice_get (numbers self.old.map.entries) place ≡ Some number
            → (self.old.log.first ≤ number) × (number < self.old.log.first + length self.old.log.places.items) }
        ensures places { self.new.log.places.items ≡ settled self.old.log.first (numbers self.old.map.entries) place self.old.log.places.items }
        ensures first { self.new.log.first ≡ self.old.log.first }
        ensures capacity { deque_capacity self.new.log.places ≡ deque_capacity self.old.log.places }
        ensures map { self.new.map.entries ≡ self.old.map.entries }
    {
        if let Some((_, moved)) = self.map.get_index(place as usize) {
            let number = moved.number;
            self.log.put(number, place);
        }
    }

    /// Takes the oldest pair out.
    pub(crate) fn pop(&mut self) -> Option<(K, V)>
        requires ordered { Ordered self.old }
        requires trim { Trim self.old }
        requires fits { next_number self.old < 2 ^ 64 }
        ensures ordered { Ordered self.new }
        ensures trim { Trim self.new }
        ensures oldest { stored self.old ≡ option_to_list result ++ stored self.new }
        ensures none { IfNone result (stored self.old ≡ []) }
        ensures spent { spent self.new ≤ spent self.old }
    {
        if self.log.len() == 0 {
            return None;
        }
        let place = self.log.pop();
        let (key, stamped) = self.map.swap_remove_index(place as usize)?;
        self.settle(place);
        self.trim();
        let Stamped { value, number: _ } = stamped;
        Some((key, value))
    }

    /// The oldest pair.
    pub(crate) fn oldest(&self) -> Option<(&K, &V)>
        requires ordered { Ordered self.now }
        requires trim { Trim self.now }
        ensures { option_map (λ p. (p.0.now, p.1.now)) result ≡ slice_get (stored self.now) 0 }
    {
        let place = self.log.front()?;
        let (key, stamped) = self.map.get_index(place as usize)?;
        Some((key, &stamped.value))
    }

    /// Changes each value, in the map's order.
    pub(crate) fn change_values<C: Change<K, V>>(&mut self, change: &mut C)
        requires { MayChange C.accepts C.changes change.old (bare self.old.map.entries) }
        ensures passed { IsPassed C.changes change.old change.new (bare self.old.map.entries) (bare self.new.map.entries) }
        ensures numbers { numbers self.new.map.entries ≡ numbers self.old.map.entries }
        ensures log { self.new.log ≡ self.old.log }
    {
        for place in 0..self.map.len() {
            let (key, stamped) = self.map.pair_mut(place);
            change.change(key, &mut stamped.value);
        }
    }

    /// Room in the map and in the log for one pair more. It fails at 4294967294 pairs too, as places are counted in 32 bits.
    fn reserve(&mut self) -> Result<(), AllocError>
        requires ordered { Ordered self.old }
        requires trim { Trim self.old }
        requires fits { spent self.old < 2 ^ 64 + length self.old.map.entries }
        ensures ordered { Ordered self.new }
        ensures trim { Trim self.new }
        ensures stored { stored self.new ≡ stored self.old }
        ensures pairs { bare self.new.map.entries ≡ bare self.old.map.entries }
        ensures len { length self.new.map.entries ≡ length self.old.map.entries }
        ensures spent { spent self.new ≤ spent self.old }
        ensures map { OnOk result (0 < spare self.new.map) }
        ensures few { OnOk result (length self.new.map.entries + 1 < 4294967295) }
        ensures log { OnOk result (length self.new.log.places.items < deque_capacity self.new.log.places) }
        ensures room { OnOk result (2 * length self.new.map.entries + 2 ≤ deque_capacity self.new.log.places) }
    {
        let len = self.map.len();
        if len >= MOST {
            return Err(AllocError);
        }
        if self.log.capacity() < 2 * len + 2 {
            self.log.reserve(4 * len + 8)?;
        }
        self.make_room();
        self.map.reserve(1)?;
        Ok(())
    }
}

impl<K: Eq + Hash + Clone + Drop, V: Copy, S: BuildHasher> Store<K, V, S> {
    /// A copy of the pairs, in the map's order, and of the log.
    pub(crate) fn copy(
        &self,
        alloc: Global,
        room: CopyRoom<K, V>,
    ) -> Result<RecentCopy<K, V>, AllocError>
        requires { Ordered self.now }
        ensures { IfOk result (λ copy. ((key clone : K) → K.is_clone key clone → clone ≡ key) → copy ≡ stored self.now) }
    {
        let places = self.log.copy(alloc)?;
        let mut pairs = room.pairs;
        pairs.clear();
        pairs.reserve(self.map.len())?;
        for (key, stamped) in &self.map {
            pairs.push((key.clone()?, stamped.value))?;
        }
        Ok(RecentCopy { pairs, places })
    }
}

impl<K: Eq + Hash + Drop, V: Drop, S: BuildHasher> Store<K, V, S> {
    /// Takes all pairs out. The room that they had stays.
    pub(crate) fn clear(&mut self)
        ensures ordered { Ordered self.new }
        ensures trim { Trim self.new }
        ensures stored { stored self.new ≡ [] }
        ensures spent { spent self.new ≤ spent self.old }
    {
        self.map.clear();
        self.log.clear();
    }

    /// Takes the pair at a place out, and answers its value.
    pub(crate) fn take_at(&mut self, place: usize) -> V
        requires ordered { Ordered self.old }
        requires within { place < length self.old.map.entries }
        requires fits { next_number self.old < 2 ^ 64 }
        ensures ordered { Ordered self.new }
        ensures trim { Trim self.new }
        ensures old { (test : K → Bool) → OnlyAt test place (bare self.old.map.entries) → lookup test (stored self.old) ≡ Some result }
        ensures left { (test : K → Bool) → OnlyAt test place (bare self.old.map.entries) → stored self.new ≡ remove_entry test (stored self.old) }
        ensures spent { spent self.new ≤ spent self.old }
    {
        let (_, stamped) = self.map.swap_remove_index(place).unwrap();
        let Stamped { value, number } = stamped;
        self.log.put(number, HOLE);
        self.settle(place as u32);
        self.trim();
        value
    }

    /// Appends a pair whose key isn't there.
    pub(crate) fn push(&mut self, key: K, value: V) -> Result<(), AllocFailed<(K, V)>>
        requires ordered { Ordered self.old }
        requires trim { Trim self.old }
        requires absent { Nowhere (K.eq key) (bare self.old.map.entries) }
        requires fits { spent self.old + 1 < 2 ^ 64 + length self.old.map.entries }
        ensures ordered { Ordered self.new }
        ensures trim { Trim self.new }
        ensures ok { OnOk result (stored self.new ≡ stored self.old ++ (key, value) ∷ []) }
        ensures spent { OnOk result (spent self.new ≤ spent self.old + 2) }
        ensures len { OnOk result (length self.new.map.entries ≡ length self.old.map.entries + 1) }
        ensures err { OnErr result (stored self.new ≡ stored self.old) }
        ensures err_spent { OnErr result (spent self.new ≤ spent self.old) }
        ensures err_len { OnErr result (length self.new.map.entries ≡ length self.old.map.entries) }
        ensures value_returned { IfErr result (λ failed. failed.value ≡ (key, value)) }
    {
        if self.reserve().is_err() {
            return Err(AllocFailed {
                value: (key, value),
            });
        }
        let place = self.map.len() as u32;
        let number = self.log.end();
        self.map.insert(key, Stamped { value, number }).unwrap();
        self.log.push(place);
        Ok(())
    }
}

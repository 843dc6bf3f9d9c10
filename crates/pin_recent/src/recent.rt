ghost use Rattle.std.specs.Prelude.{◌≡◌, ◌+◌, ◌^◌, ◌<◌, ◌≤◌, None, List, [], ◌∷◌, ◌++◌, if◌then◌else◌, is_some, IfOk, IfErr, IfNone, IsPermutation, OnErr, OnOk, length, drop, slice_get};
ghost use Rattle.std.specs.Map.{lookup, remove_entry};
ghost use Rattle.std.specs.Option.{option_copied, option_map};
ghost use Rattle.pin_recent.specs.Recent.{IsChanged, MayChange, in_order, touched};

use crate::change::Change;
use crate::copy::RecentCopy;
use crate::room::CopyRoom;
use crate::store::Store;
use std::alloc::{AllocError, AllocFailed, Global};
use std::hash::{BuildHasher, Hash};
use std::marker::Model;

/// A map from keys to values in order of last use.
///
/// A push and a touch are uses; a look-up is none. Places are counted in 32 bits, so that it holds at most 4294967294 pairs.
/// Besides the map it takes 8 bytes a pair for the number of the last use, and 8 to 24 for the order.
#[derive(Drop)]
pub struct Recent<K: Eq + Hash, V, S: BuildHasher> {
    store: Store<K, V, S>,
    uses: u64,
}

impl<K: Eq + Hash, V, S: BuildHasher> Model for Recent<K, V, S> {
    ghost use Rattle.std.specs.Prelude.{◌*◌, ◌≤◌};
    ghost use Rattle.pin_recent.specs.Recent.{InOrder, in_order};
    ghost use Rattle.pin_recent.specs.Sound.{Ordered, Trim, stored, spent};

    ghost Value = { InOrder K V };

    ghost view = { λ r. in_order (stored r.store) r.uses };

    ghost invariant = { λ r. record {
      ordered : Ordered r.store;
      trim : Trim r.store;
      counted : spent r.store ≤ 2 * r.uses;
    } };
}

impl<K: Eq + Hash, V, S: BuildHasher> Recent<K, V, S> {
    /// An empty map. It allocates nothing until the first push.
    pub fn new(alloc: Global, hasher: S) -> Self
        ensures { result ≡ in_order [] 0 }
    {
        Recent {
            store: Store::new(alloc, hasher),
            uses: 0,
        }
    }

    /// How many pairs there are.
    pub fn len(&self) -> usize
        ensures { result ≡ length self.now.pairs }
    {
        self.store.len()
    }

    /// How many uses there were. The number never falls.
    pub fn uses(&self) -> u64
        ensures { result ≡ self.now.uses }
    {
        self.uses
    }

    /// The value of a key. It is no use, and costs one look-up by hash.
    pub fn find(&self, key: &K) -> Option<&V>
        ensures { option_copied result ≡ lookup (K.eq key.now) self.now.pairs }
    {
        self.store.find(key)
    }

    /// The pair that wasn't used for longest. It costs a few machine instructions.
    pub fn oldest(&self) -> Option<(&K, &V)>
        ensures { option_map (λ p. (p.0.now, p.1.now)) result ≡ slice_get self.now.pairs 0 }
    {
        self.store.oldest()
    }

    /// Takes out the pair that wasn't used for longest, without memory.
    pub fn pop_oldest(&mut self) -> Option<(K, V)>
        requires { self.old.uses ≤ 2 ^ 63 }
        ensures oldest { result ≡ slice_get self.old.pairs 0 }
        ensures left { self.new.pairs ≡ drop 1 self.old.pairs }
        ensures uses { self.new.uses ≡ self.old.uses }
    {
        if self.store.len() == 0 {
            return None;
        }
        self.store.pop()
    }

    /// Changes each value once, in an order of the map's own. It is no use of any pair, hashes nothing, allocates nothing and
    /// can't fail. It costs one walk over the pairs, and a call of `change` for each of them.
    pub fn change_values<C: Change<K, V>>(&mut self, change: &mut C)
        requires { (order : List (K × V)) → IsPermutation self.old.pairs order → MayChange C.accepts C.changes change.old order }
        ensures changed { IsChanged C.changes change.old change.new self.old.pairs self.new.pairs }
        ensures uses { self.new.uses ≡ self.old.uses }
    {
        self.store.change_values(change);
    }
}

impl<K: Eq + Hash + Clone + Drop, V: Copy, S: BuildHasher> Recent<K, V, S> {
    /// A copy of the pairs, for a walk in order of last use. It is no use of any pair. It has exactly the map's pairs where the clone
    /// of a key equals the key.
    ///
    /// It costs one pass over the pairs, in an order of the map's own, that clones each key, and a copy of the order of last use.
    /// Only a walk through the copy brings the two together. It hashes nothing. What the room lacks, and 4 bytes for each pair and
    /// each hole of the order, is taken before the pass. The only error is out of memory, for that or for a key.
    pub fn copy(&self, alloc: Global, room: CopyRoom<K, V>) -> Result<RecentCopy<K, V>, AllocError>
        ensures { IfOk result (λ copy. ((key clone : K) → K.is_clone key clone → clone ≡ key) → copy ≡ self.now.pairs) }
    {
        self.store.copy(alloc, room)
    }
}

impl<K: Eq + Hash, V: Drop, S: BuildHasher> Recent<K, V, S> {
    /// Gives a key's pair a new value, puts it last, and answers the old value. Where the key isn't there, nothing changes. It
    /// allocates nothing.
    ///
    /// It costs one look-up by hash and a few machine instructions. Once in as many touches as there are pairs, or more seldom, it
    /// costs a pass over all of them besides.
    pub fn touch(&mut self, key: &K, value: V) -> Option<V>
        requires { self.old.uses < 2 ^ 63 }
        ensures old { result ≡ lookup (K.eq key.now) self.old.pairs }
        ensures touched { self.new.pairs ≡ touched (K.eq key.now) value self.old.pairs }
        ensures uses { self.new.uses ≡ self.old.uses + (if is_some result then 1 else 0) }
    {
        let place = self.store.place_of(key)?;
        let old = self.store.touch_at(place, value);
        self.uses += 1;
        Some(old)
    }
}

impl<K: Eq + Hash + Drop, V: Drop, S: BuildHasher> Recent<K, V, S> {
    /// Takes a key's pair out, and answers its value. Where the key isn't there, nothing changes. It needs no memory, and costs one
    /// look-up by hash and a few machine instructions.
    pub fn take_out(&mut self, key: &K) -> Option<V>
        requires { self.old.uses ≤ 2 ^ 63 }
        ensures old { result ≡ lookup (K.eq key.now) self.old.pairs }
        ensures left { self.new.pairs ≡ remove_entry (K.eq key.now) self.old.pairs }
        ensures kept { IfNone result (self.new ≡ self.old) }
        ensures uses { self.new.uses ≡ self.old.uses }
    {
        let place = self.store.place_of(key)?;
        Some(self.store.take_at(place))
    }

    /// Takes all pairs out, without memory; what they had is kept for others. It hashes nothing, and costs one walk over the pairs
    /// and over what finds them, which has the size that the map once had.
    pub fn clear(&mut self)
        ensures pairs { self.new.pairs ≡ [] }
        ensures uses { self.new.uses ≡ self.old.uses }
    {
        self.store.clear();
    }

    /// Appends a pair whose key isn't there.
    ///
    /// Fails, with the pair handed back, where there is no memory, or with 4294967294 pairs there.
    pub fn push(&mut self, key: K, value: V) -> Result<(), AllocFailed<(K, V)>>
        requires absent { lookup (K.eq key) self.old.pairs ≡ None }
        requires uses { self.old.uses < 2 ^ 63 }
        ensures ok { OnOk result (self.new ≡ in_order (self.old.pairs ++ (key, value) ∷ []) (self.old.uses + 1)) }
        ensures err { OnErr result (self.new ≡ self.old) }
        ensures value_returned { IfErr result (λ failed. failed.value ≡ (key, value)) }
    {
        self.store.push(key, value)?;
        self.uses += 1;
        Ok(())
    }
}

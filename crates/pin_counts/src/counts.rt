ghost use Rattle.std.specs.Prelude.{◌≡◌, ℕ, ◌+◌, ◌^◌, ◌<◌, ◌==◌, [], All, IsOk, OnOk, OnErr, length};
ghost use Rattle.std.specs.Map.Iter.{ShowsInOrder, deref_pair};
ghost use Rattle.pin_counts.specs.Counts.{count_of, HasMore, HasOneMore, HasChanged, AreRising};

use std::alloc::{AllocError, Global};
use std::collections::BTreeMap;
use std::collections::btree_map::Iter;
use std::marker::Model;

/// How many there are of each kind. Kinds that `==` says are equal are one kind.
///
/// Each call costs a few look-ups in a tree of the kinds that are present, and it allocates only where a kind becomes
/// present.
#[derive(Debug, Drop)]
pub struct Counts<K: Ord> {
    counts: BTreeMap<K, u64>,
}

impl<K: Ord> Model for Counts<K> {
    ghost use Rattle.std.specs.Prelude.{ℕ, List};
    ghost use Rattle.pin_counts.specs.Counts.{AreRising};

    ghost Value = { List (K × ℕ) };

    ghost view = { λ c. c.counts.entries };

    ghost invariant = { λ c. AreRising K.cmp c.counts.entries };
}

impl<K: Ord + Copy> Counts<K> {
    /// Of no kind there is any. It allocates nothing.
    pub fn new(alloc: Global) -> Self
        ensures { result ≡ [] }
    {
        Counts {
            counts: BTreeMap::new(alloc),
        }
    }

    /// How many there are of this kind.
    pub fn count(&self, kind: K) -> u64
        ensures { result ≡ count_of K.eq self.now kind }
    {
        self.counts.get(&kind).copied().unwrap_or(0)
    }

    /// Counts one more of this kind. It may need memory where there is none of it so far; a refusal changes nothing.
    pub fn add(&mut self, kind: K) -> Result<(), AllocError>
        requires { count_of K.eq self.old kind + 1 < 2 ^ 64 }
        ensures ok { OnOk result (HasOneMore K.eq self.old kind self.new) }
        ensures err { OnErr result (self.new ≡ self.old) }
        ensures no_memory { 0 < count_of K.eq self.old kind → IsOk result }
    {
        self.add_many(kind, 1)
    }

    /// Counts so many more of this kind, at least one. It may need memory where there is none of it so far; a refusal changes
    /// nothing.
    pub fn add_many(&mut self, kind: K, more: u64) -> Result<(), AllocError>
        requires some { 0 < more }
        requires fits { count_of K.eq self.old kind + more < 2 ^ 64 }
        ensures ok { OnOk result (HasMore K.eq self.old kind more self.new) }
        ensures err { OnErr result (self.new ≡ self.old) }
        ensures no_memory { 0 < count_of K.eq self.old kind → IsOk result }
    {
        if let Some(count) = self.counts.get_mut(&kind) {
            *count += more;
            return Ok(());
        }
        self.counts.insert(kind, more)?;
        Ok(())
    }

    /// Counts one fewer of this kind, of which there has to be one. It allocates nothing.
    pub fn remove(&mut self, kind: K)
        requires { 0 < count_of K.eq self.old kind }
        ensures { HasOneMore K.eq self.new kind self.old }
    {
        match self.counts.get_mut(&kind) {
            Some(count) if *count > 1 => *count -= 1,
            Some(_) => {
                let _ = self.counts.remove(&kind);
            }
            // This never is, since there has to be one.
            None => {}
        }
    }

    /// Counts one that was of the first kind as one of the second, which may be the same. It may need memory where there is
    /// none of the second so far; a refusal changes nothing.
    pub fn change(&mut self, from: K, to: K) -> Result<(), AllocError>
        requires present { 0 < count_of K.eq self.old from }
        requires fits { count_of K.eq self.old to + 1 < 2 ^ 64 }
        ensures ok { OnOk result (HasChanged K.eq self.old from to self.new) }
        ensures err { OnErr result (self.new ≡ self.old) }
        ensures no_memory { 0 < count_of K.eq self.old to → IsOk result }
    {
        // What may be refused comes first, so that nothing has to be undone.
        self.add(to)?;
        self.remove(from);
        Ok(())
    }

    /// Counts nothing any more. It gives all memory back.
    pub fn clear(&mut self)
        ensures { self.new ≡ [] }
    {
        self.counts.clear();
    }

    /// How many kinds are present.
    pub fn len(&self) -> usize
        ensures { result ≡ length self.now }
    {
        self.counts.len()
    }

    /// Whether no kind is present.
    pub fn is_empty(&self) -> bool
        ensures { result ≡ (length self.now == 0) }
    {
        self.counts.len() == 0
    }

    /// The kinds that are present, in rising order, each with how many there are of it.
    pub fn iter(&self) -> Iter<'_, K, u64>
        ensures rest { result ≡ self.now }
        ensures rising { AreRising K.cmp self.now }
        ensures exact { All (λ c. c.1 ≡ count_of K.eq self.now c.0) self.now }
        ensures runs { ShowsInOrder (deref_pair {K = K} {X = ℕ}) }
    {
        self.counts.iter()
    }
}

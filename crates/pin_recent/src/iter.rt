//! A walk over a copy's pairs in order of last use.
ghost use Rattle.std.specs.Prelude.{length};
ghost use Rattle.std.specs.Iterator.{at_most};
ghost use Rattle.std.specs.Map.Iter.{TakesFirst, deref_pair};

use std::iter::FusedIterator;
use std::marker::Model;
use std::slice;

/// The pairs of a copy in order of last use, from the one that wasn't used for longest. It is seen as the list of what it has left.
///
/// Each step reads the order up to the next pair, and goes to where that pair is kept. It allocates nothing.
#[derive(Drop)]
pub struct Iter<'a, K, V> {
    pub(crate) pairs: &'a [(K, V)],
    pub(crate) places: slice::Iter<'a, u32>,
}

impl<'a, K, V> Model for Iter<'a, K, V> {
    ghost use Rattle.std.specs.Prelude.{List};
    ghost use Rattle.std.specs.Slice.Iter.{iter_rest};
    ghost use Rattle.pin_recent.specs.Sound.{picked};

    ghost Value = { List (K × V) };

    ghost view = { λ i. picked i.pairs.now (iter_rest i.places) };
}

impl<'a, K, V> Iterator for Iter<'a, K, V> {
    type Item = (&'a K, &'a V);

    ghost next_gives = { TakesFirst deref_pair };

    ghost remaining = { λ left. at_most (length left) };

    fn next(&mut self) -> Option<(&'a K, &'a V)> {
        // A hole is no place, and is passed over.
        while let Some(place) = self.places.next() {
            if let Some((key, value)) = self.pairs.get(*place as usize) {
                return Some((key, value));
            }
        }
        None
    }
}

impl<'a, K, V> FusedIterator for Iter<'a, K, V> {}

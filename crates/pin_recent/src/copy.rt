//! What is copied of a map.
ghost use Rattle.std.specs.Prelude.{◌≡◌, length};

use crate::iter::Iter;
use std::marker::Model;

/// The pairs that a map had when it was copied, in order of last use, the one that wasn't used for longest first. It is seen as
/// the list of them.
///
/// They are kept as the map kept them, and come into order as they are walked through.
#[derive(Drop)]
pub struct RecentCopy<K, V> {
    pub(crate) pairs: Vec<(K, V)>,
    pub(crate) places: Vec<u32>,
}

impl<K, V> Model for RecentCopy<K, V> {
    ghost use Rattle.std.specs.Prelude.{◌≡◌, List, length};
    ghost use Rattle.pin_recent.specs.Sound.{picked};

    ghost Value = { List (K × V) };

    ghost view = { λ c. picked c.pairs.items c.places.items };

    ghost invariant = { λ c. length (picked c.pairs.items c.places.items) ≡ length c.pairs.items };
}

impl<K, V> RecentCopy<K, V> {
    /// How many pairs there are.
    pub fn len(&self) -> usize
        ensures { result ≡ length self.now }
    {
        self.pairs.len()
    }

    /// The pairs in order of last use, from the one that wasn't used for longest.
    ///
    /// A walk through all of them is one pass over the order and the holes that touches left in it, and goes to each pair where it
    /// is kept. It allocates nothing.
    pub fn iter(&self) -> Iter<'_, K, V>
        ensures { result ≡ self.now }
    {
        Iter {
            pairs: &self.pairs,
            places: self.places.iter(),
        }
    }
}

use crate::guest::Guest;
use lru::LruCache;
use std::alloc::{AllocError, Global};
use std::num::NonZeroUsize;

/// The connection that leaves where a guest is let in.
pub(crate) enum Leaver<S> {
    /// The one that wasn't heard of for longest, since there are too many.
    Oldest(Guest<S>),
    /// The one that was to be let in, since there is no memory for it.
    Newest(Guest<S>),
}

/// The connections whose heads aren't whole, by the numbers under which the system reports them, in the order in which they were last
/// heard of. No number comes twice, so a late report of one that left is of none that stays.
#[derive(Drop)]
pub(crate) struct Guests<S: Drop> {
    by_number: LruCache<usize, Guest<S>>,
}

impl<S: Drop> Guests<S> {
    /// None yet, and room for so many, at least for one.
    pub(crate) fn new(alloc: Global, most: usize) -> Result<Self, AllocError> {
        let most = NonZeroUsize::new(most).unwrap_or(NonZeroUsize::MIN);
        Ok(Guests {
            by_number: LruCache::sparse(alloc, most)?,
        })
    }

    pub(crate) fn len(&self) -> usize {
        self.by_number.len()
    }

    /// Lets a guest in that was just heard of, and gives the one that leaves for it.
    pub(crate) fn let_in(&mut self, number: usize, guest: Guest<S>) -> Option<Leaver<S>> {
        match self.by_number.push(number, guest) {
            Ok(None) => None,
            Ok(Some((_, oldest))) => Some(Leaver::Oldest(oldest)),
            Err(failed) => Some(Leaver::Newest(failed.value.1)),
        }
    }

    /// Takes out the guest of this number.
    pub(crate) fn take(&mut self, number: usize) -> Option<Guest<S>> {
        self.by_number.pop(&number)
    }

    /// When the guest that wasn't heard of for longest was last heard of, if there is a guest.
    pub(crate) fn oldest(&self) -> Option<Option<u64>> {
        let (_, guest) = self.by_number.peek_lru()?;
        Some(guest.heard)
    }

    /// Takes out the guest that wasn't heard of for longest.
    pub(crate) fn take_oldest(&mut self) -> Option<Guest<S>> {
        let (_, guest) = self.by_number.pop_lru()?;
        Some(guest)
    }
}

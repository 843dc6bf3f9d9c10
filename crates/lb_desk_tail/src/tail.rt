ghost use Rattle.std.specs.Prelude.{◌≡◌, ℕ, ◌+◌, ◌^◌, ◌<◌, ◌≤◌, ◌==◌, [], ◌∷◌, ◌++◌, List, length, take, Some, IfOk, IsNone, ◌↔◌};
ghost use Rattle.std.specs.Option.{option_copied, option_to_list};
ghost use Rattle.std.specs.VecDeque.Iter.{deque_iter_rest, deque_iter_steps, deque_iter_steps_back};
ghost use Rattle.std.specs.Iterator.Runs.{YieldsRefsInOrder, YieldsRefsInReverse};
ghost use Rattle.lb_desk_tail.specs.Tail.{empty_tail, leaving, with_entry, IsTailOf};

use std::alloc::{AllocError, Global};
use std::collections::VecDeque;
use std::collections::vec_deque::Iter;
use std::marker::Model;

/// The newest entries of a log, at most as many as its capacity, and the number of the first of them.
///
/// Each call but `new` costs a few machine instructions and allocates nothing.
#[derive(Debug, Drop)]
pub struct Tail<E> {
    kept: VecDeque<E>,
    first: u64,
}

impl<E> Model for Tail<E> {
    ghost use Rattle.std.specs.Prelude.{ℕ, ◌+◌, ◌^◌, ◌<◌, length};
    ghost use Rattle.std.specs.VecDeque.{deque_capacity};
    ghost use Rattle.lb_desk_tail.specs.Tail.{TailView};

    ghost Value = { TailView E };

    ghost view = { λ t. record { capacity = deque_capacity t.kept; first = t.first; entries = t.kept.items } };

    ghost invariant = { λ t. (0 < deque_capacity t.kept) × (t.first + length t.kept.items < 2 ^ 64) };
}

impl<E> Tail<E> {
    /// The end of a log that has no entry yet. The memory for as many entries as the capacity says is taken here, whole.
    pub fn new(alloc: Global, capacity: usize) -> Result<Tail<E>, AllocError>
        requires { 0 < capacity }
        ensures { IfOk result (λ tail. tail ≡ empty_tail capacity) }
    {
        Ok(Tail {
            kept: VecDeque::with_capacity(alloc, capacity)?,
            first: 0,
        })
    }

    /// Adds an entry to the log. Where the tail is full, its oldest entry is forgotten, and handed out.
    ///
    /// It never fails. Dropping what it hands out may cost more than the call: do that where nobody waits.
    pub fn push(&mut self, entry: E) -> Option<E>
        requires { self.old.first + length self.old.entries + 1 < 2 ^ 64 }
        // Whichever log this was the tail of, it is the tail of that log with the entry.
        ensures log { (log : List E) → IsTailOf log self.old → IsTailOf (log ++ entry ∷ []) self.new }
        ensures pushed { self.new ≡ with_entry self.old entry }
        ensures oldest { option_to_list result ≡ take (leaving self.old) self.old.entries }
    {
        let oldest = if self.kept.len() == self.kept.capacity() {
            self.first += 1;
            self.kept.pop_front()
        } else {
            None
        };
        self.kept.push_back_reserved(entry);
        oldest
    }

    /// How many entries were forgotten, which is the number of the first one that is kept.
    pub fn first(&self) -> u64
        ensures { result ≡ self.now.first }
    {
        self.first
    }

    /// How many entries the log has, which is the number that the next one gets.
    pub fn next_number(&self) -> u64
        ensures { result ≡ self.now.first + length self.now.entries }
    {
        self.first + self.kept.len() as u64
    }

    /// How many entries are kept at most, at least 1.
    pub fn capacity(&self) -> usize
        ensures capacity { result ≡ self.now.capacity }
        ensures some { 0 < result }
    {
        self.kept.capacity()
    }

    /// How many entries are kept.
    pub fn len(&self) -> usize
        ensures len { result ≡ length self.now.entries }
        ensures bounded { result ≤ self.now.capacity }
    {
        self.kept.len()
    }

    /// Whether no entry is kept.
    pub fn is_empty(&self) -> bool
        ensures { result ≡ (length self.now.entries == 0) }
    {
        self.kept.is_empty()
    }

    /// The newest entry.
    pub fn last(&self) -> Option<&E>
        ensures none { IsNone result ↔ (self.now.entries ≡ []) }
        ensures newest { (before : List E) (entry : E)
            → self.now.entries ≡ before ++ entry ∷ [] → option_copied result ≡ Some entry }
    {
        self.kept.back()
    }

    /// The entries that are kept, the oldest first.
    pub fn iter(&self) -> Iter<'_, E>
        ensures rest { deque_iter_rest result ≡ self.now.entries }
        ensures runs { YieldsRefsInOrder (deque_iter_steps {X = E}) deque_iter_rest }
        ensures runs_back { YieldsRefsInReverse (deque_iter_steps_back {X = E}) deque_iter_rest }
    {
        self.kept.iter()
    }

    /// The entries that are kept as two slices, which joined are in order, the oldest first.
    pub fn as_slices(&self) -> (&[E], &[E])
        ensures { result.0.now ++ result.1.now ≡ self.now.entries }
    {
        self.kept.as_slices()
    }
}

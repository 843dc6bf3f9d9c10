ghost use Rattle.std.specs.Prelude.{◌≡◌, ◌↔◌, ℕ, ◌+◌, ◌<◌, ◌≤◌, ◌==◌, [], Some, None, IsFalse, IfOk, option_copied, is_some, length};
ghost use Rattle.std.specs.Vec.{vec_len, vec_capacity};
ghost use Rattle.keyed_values.specs.Keys.{at, held, HasKey, Updates};

use std::alloc::{AllocError, Global};
use std::marker::Model;

/// Values under keys that it picks. A key keeps its value until that is taken, and is given to another after that. The values need not
/// be `Drop`.
pub struct Keyed<T> {
    places: Vec<Option<T>>,
    /// The keys that were given back, and have no value now.
    vacant: Vec<usize>,
    most: usize,
}

impl<T> Model for Keyed<T> {
    ghost use Rattle.std.specs.Prelude.{◌≡◌, ◌≤◌, length};
    ghost use Rattle.std.specs.Vec.{vec_capacity};
    ghost use Rattle.keyed_values.specs.Keys.{Keyed as Values};

    ghost Value = { Values T };

    ghost use Rattle.keyed_values.specs.Vacancies.{IsSound, next_of};

    ghost view = { λ s. record { places = s.places.items; next = next_of (length s.places.items) s.vacant.items; most = s.most } };

    ghost invariant = { λ s. IsSound s.places.items s.vacant.items × (length s.places.items ≤ s.most)
        × (s.most ≤ vec_capacity s.places) × (s.most ≤ vec_capacity s.vacant) };
}

impl<T> Keyed<T> {
    /// No values yet, and room for `most`. It takes all its memory here; the only error is out of memory.
    pub fn with_capacity(alloc: Global, most: usize) -> Result<Self, AllocError>
        ensures empty { IfOk result (λ keyed. keyed.places ≡ []) }
        ensures most { IfOk result (λ keyed. keyed.most ≡ most) }
    {
        let places = Vec::with_capacity(alloc, most)?;
        match Vec::with_capacity(alloc, most) {
            Ok(vacant) => Ok(Keyed {
                places,
                vacant,
                most,
            }),
            Err(error) => {
                places.destroy_empty();
                Err(error)
            }
        }
    }

    /// How many values there are.
    pub fn len(&self) -> usize
        ensures { result ≡ held self.now }
    {
        self.places.len() - self.vacant.len()
    }

    /// Whether there are none.
    pub fn is_empty(&self) -> bool
        ensures { result ≡ (held self.now == 0) }
    {
        self.len() == 0
    }

    /// Whether there is no room for more.
    pub fn is_full(&self) -> bool
        ensures { IsFalse result ↔ (held self.now < self.now.most) }
    {
        self.len() >= self.most
    }

    /// The value at the key, if there is one.
    pub fn get(&self, key: usize) -> Option<&T>
        ensures { option_copied result ≡ at self.now key }
    {
        match self.places.get(key) {
            Some(Some(value)) => Some(value),
            _ => None,
        }
    }

    /// Puts a value at the key that is next, and returns the key.
    pub fn insert(&mut self, value: T) -> usize
        requires { held self.old < self.old.most }
        ensures key { result ≡ self.old.next }
        ensures was_vacant { at self.old result ≡ None }
        ensures updates { Updates self.old self.new result (Some value) }
        ensures held { held self.new ≡ held self.old + 1 }
        ensures most { self.new.most ≡ self.old.most }
    {
        let Some(key) = self.vacant.pop() else {
            let key = self.places.len();
            self.places.push_reserved(Some(value));
            return key;
        };
        match self.places[key].replace(value) {
            None => key,
            Some(_) => unreachable!(),
        }
    }

    /// Takes the value at the key, which is next from then on.
    pub fn take(&mut self, key: usize) -> T
        requires { HasKey self.old key }
        ensures value { at self.old key ≡ Some result }
        ensures updates { Updates self.old self.new key None }
        ensures held { held self.new + 1 ≡ held self.old }
        ensures room { held self.new < self.new.most }
        ensures next { self.new.next ≡ key }
        ensures most { self.new.most ≡ self.old.most }
    {
        match self.places[key].take() {
            Some(value) => {
                self.vacant.push_reserved(key);
                value
            }
            None => unreachable!(),
        }
    }

    /// Ends it. There has to be no value.
    pub fn destroy_empty(self)
        requires { held self ≡ 0 }
        ensures { (key : ℕ) → at self key ≡ None }
    {
        let Keyed {
            places,
            vacant: _vacant,
            most: _most,
        } = self;
        let mut places = places;
        while let Some(place) = places.pop() {
            match place {
                None => {}
                Some(_) => unreachable!(),
            }
        }
        places.destroy_empty();
    }
}

ghost use Rattle.std.specs.Prelude.{◌≡◌, ◌↔◌, IsFalse, ℕ, ◌+◌, ◌<◌, ◌==◌, [], Some, None, IsTrue, IsSome, IfOk, IfSome, option_copied, option_map, is_some};
ghost use Rattle.http_relay_inflight.specs.Requests.{awaits_at};
ghost use Rattle.keyed_values.specs.Keys.{at, held, HasKey, Updates};

use http_relay_serve::Underway;
use http_relay_talk::Awaits;
use keyed_values::Keyed;
use std::alloc::{AllocError, Global};
use std::marker::{Model, PhantomData};

/// The requests of one worker that wait, each under a key: those in flight. They were begun by routings of the type `T`. A key keeps its
/// request until that is over, and only then may be given to another.
pub struct InFlight<'t, T, S, W, C> {
    requests: Keyed<Underway<'t, S, W, C>>,
    backends: usize,
    routing: PhantomData<T>,
}

impl<'t, T, S, W, C> Model for InFlight<'t, T, S, W, C> {
    ghost use Rattle.http_relay_inflight.specs.Requests.{Requests, AreWithin};

    ghost Value = { Requests S W C };

    ghost view = { λ s. record { kept = s.requests; backends = s.backends } };

    ghost invariant = { λ s. AreWithin s.backends s.requests };
}

impl<'t, T, S, W, C> InFlight<'t, T, S, W, C> {
    /// No request yet, and room for `most`, at this many backends. It allocates all its memory here; the only error is out of memory.
    pub fn with_capacity(alloc: Global, most: usize, backends: usize) -> Result<Self, AllocError>
        ensures empty { IfOk result (λ requests. requests.kept.places ≡ []) }
        ensures most { IfOk result (λ requests. requests.kept.most ≡ most) }
        ensures backends { IfOk result (λ requests. requests.backends ≡ backends) }
    {
        let requests = Keyed::with_capacity(alloc, most)?;
        Ok(InFlight {
            requests,
            backends,
            routing: PhantomData,
        })
    }

    /// How many requests there are.
    pub fn len(&self) -> usize
        ensures { result ≡ held self.now.kept }
    {
        self.requests.len()
    }

    /// Whether there are none.
    pub fn is_empty(&self) -> bool
        ensures { result ≡ (held self.now.kept == 0) }
    {
        self.requests.is_empty()
    }

    /// Whether there is no room for more.
    pub fn is_full(&self) -> bool
        ensures { IsFalse result ↔ (held self.now.kept < self.now.kept.most) }
    {
        self.requests.is_full()
    }

    /// The request under the key, if there is one.
    pub fn get(&self, key: usize) -> Option<&Underway<'t, S, W, C>>
        ensures { option_copied result ≡ at self.now.kept key }
    {
        self.requests.get(key)
    }

    /// What the request under the key waits for, if there is one.
    pub fn awaits(&self, key: usize) -> Option<Awaits>
        ensures { result ≡ awaits_at (at self.now.kept key) }
    {
        match self.requests.get(key) {
            Some(underway) => Some(underway.awaits()),
            None => None,
        }
    }

    /// Takes the request under the key out. The key is the next one that `insert` gives.
    pub(crate) fn take(&mut self, key: usize) -> Underway<'t, S, W, C>
        requires { HasKey self.old.kept key }
        ensures value { at self.old.kept key ≡ Some result }
        ensures within { result.backend < self.old.backends }
        ensures updates { Updates self.old.kept self.new.kept key None }
        ensures held { held self.new.kept + 1 ≡ held self.old.kept }
        ensures room { held self.new.kept < self.new.kept.most }
        ensures next { self.new.kept.next ≡ key }
        ensures most { self.new.kept.most ≡ self.old.kept.most }
        ensures backends { self.new.backends ≡ self.old.backends }
    {
        self.requests.take(key)
    }

    /// Keeps a request under the next key.
    pub(crate) fn insert(&mut self, underway: Underway<'t, S, W, C>) -> usize
        requires room { held self.old.kept < self.old.kept.most }
        requires within { underway.backend < self.old.backends }
        ensures key { result ≡ self.old.kept.next }
        ensures was_vacant { at self.old.kept result ≡ None }
        ensures updates { Updates self.old.kept self.new.kept result (Some underway.entry) }
        ensures held { held self.new.kept ≡ held self.old.kept + 1 }
        ensures most { self.new.kept.most ≡ self.old.kept.most }
        ensures backends { self.new.backends ≡ self.old.backends }
    {
        self.requests.insert(underway)
    }

    /// Ends it. There has to be no request.
    pub fn destroy_empty(self)
        requires { held self.kept ≡ 0 }
        ensures { (key : ℕ) → at self.entry.kept key ≡ None }
    {
        let InFlight {
            requests,
            backends: _backends,
            routing: _routing,
        } = self;
        requests.destroy_empty();
    }
}

use std::alloc::{AllocError, Global};
use std::fmt;
use std::marker::Model;
use std::ops::Deref;
use std::sync::Arc;

/// A value that is never written again, with one owner or more. Clauses see the value itself, and code reaches it by `*`.
///
/// It takes 8 bytes where it stands; the value stands apart, once. A copy is one owner more of the same value.
#[derive(Drop)]
pub struct Shared<T> {
    value: Arc<T>,
}

impl<T> Model for Shared<T> {
    ghost use Rattle.std.specs.Arc.{arc_value};

    ghost Value = { T };

    ghost view = { λ shared. arc_value shared.value };
}

impl<T: Drop> Shared<T> {
    ghost use Rattle.std.specs.Prelude.{◌≡◌, IfOk};

    /// The value, with one owner. It allocates memory for the value and its count of owners.
    pub fn new(alloc: Global, value: T) -> Result<Self, AllocError>
        ensures { IfOk result (λ shared. shared ≡ value) }
    {
        Ok(Shared {
            value: Arc::new(alloc, value)?,
        })
    }
}

impl<T> Deref for Shared<T> {
    ghost use Rattle.std.specs.Prelude.{◌≡◌};

    type Target = T;

    ghost deref_gives = { λ shared value. value ≡ shared };

    fn deref(&self) -> &T {
        &*self.value
    }
}

impl<T: Drop> Clone for Shared<T> {
    ghost use Rattle.std.specs.Prelude.{◌≡◌};

    ghost is_clone = { λ shared copy. copy ≡ shared };

    /// One owner more, for a step of a counter and no memory. It fails at 2^63 - 1 owners.
    fn clone(&self) -> Result<Self, AllocError> {
        Ok(Shared {
            value: Arc::try_clone(&self.value)?,
        })
    }
}

impl<T: PartialEq> PartialEq for Shared<T> {
    ghost eq = { T.eq };

    ghost laws = { T.laws };

    fn eq(&self, other: &Shared<T>) -> bool {
        **self == **other
    }
}

impl<T: Eq> Eq for Shared<T> {
    ghost laws = { T.Eq.laws };
}

impl<T: fmt::Debug> fmt::Debug for Shared<T> {
    fn fmt<W: fmt::Write>(&self, f: &mut fmt::Formatter<W>) -> fmt::Result {
        (**self).fmt(f)
    }
}

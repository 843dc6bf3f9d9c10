ghost use Rattle.std.specs.Prelude.{◌≡◌, [], length};
ghost use Rattle.lb_config_limits.specs.Limits.{Gives, added, with_room};

use crate::ordered_name::OrderedName;
use crate::{LimitError, LimitFault};
use lb_types::Name;
use std::alloc::Global;
use std::collections::BTreeSet;
use std::marker::Model;

/// Names, each once. As a value it is the list of the names in the order of their bytes.
///
/// The set is ordered and not hashed, since a text may be written so that its names collide in a hash whose seed is known.
#[derive(Drop)]
pub(crate) struct NameSet {
    names: BTreeSet<OrderedName>,
}

impl Model for NameSet {
    ghost use Rattle.std.specs.Prelude.{List, ℕ};

    ghost Value = { List (List ℕ) };

    ghost view = { λ set. set.names.keys };
}

impl NameSet {
    pub(crate) fn new(alloc: Global) -> Self
        ensures { result ≡ [] }
    {
        NameSet {
            names: BTreeSet::new(alloc),
        }
    }

    /// Adds the name, if one is given. One that is there already is refused. It compares with about the logarithm of the names.
    #[tactic(auto, unfolding(crate::specs::Limits::added))]
    pub(crate) fn add(&mut self, name: Option<Name>) -> Result<(), LimitError>
        ensures { Gives (λ _. self.new) result (added self.old name) }
    {
        let Some(name) = name else {
            return Ok(());
        };
        if !self.names.insert(OrderedName::new(name))? {
            return Err(LimitFault::Duplicate.into());
        }
        Ok(())
    }

    /// Refuses where as many names as may be are there.
    #[tactic(auto, unfolding(crate::specs::Limits::with_room))]
    pub(crate) fn want_room(&self, limit: usize) -> Result<(), LimitFault>
        ensures { result ≡ with_room limit self.now }
    {
        if self.names.len() >= limit {
            return Err(LimitFault::TooMany);
        }
        Ok(())
    }

    pub(crate) fn clear(&mut self)
        ensures { self.new ≡ [] }
    {
        self.names.clear();
    }
}

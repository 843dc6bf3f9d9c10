//! Pins of distinct names, of which each was used no later than those that came before it.
ghost use Rattle.std.specs.Prelude.{◌≡◌, [], ◌∷◌, OnOk, IfOk, length, map, if◌then◌else◌};
ghost use Rattle.lb_desk_model.specs.Sets.{set_pin};
ghost use Rattle.pin_file_return.specs.Returns.{is_named};

use crate::stay::Stay;
use indexmap::IndexMap;
use lb_desk_model::SetPin;
use pin_set::PinId;
use std::alloc::{AllocError, AllocFailed, Global};
use std::hash::BuildHasher;
use std::marker::Model;

/// Pins of distinct names. They come in from the one that was used last on, and go out from the one that was used first on.
#[derive(Drop)]
pub(crate) struct Kept<S: BuildHasher> {
    stays: IndexMap<PinId, Stay, S>,
}

impl<S: BuildHasher> Model for Kept<S> {
    ghost use Rattle.std.specs.Prelude.{List};
    ghost use Rattle.pin_set.specs.declared.table_pin.TablePin.{TablePin};
    ghost use Rattle.pin_file_return.specs.Stays.{pins_in};

    ghost Value = { List TablePin };

    ghost view = { λ kept. pins_in kept.stays.entries };
}

impl<S: BuildHasher + Drop> Kept<S> {
    /// No pin. It allocates nothing until one is added.
    pub(crate) fn new(alloc: Global, hasher: S) -> Self
        ensures { result ≡ [] }
    {
        Kept {
            stays: IndexMap::with_hasher(alloc, hasher),
        }
    }

    /// How many pins there are.
    pub(crate) fn len(&self) -> usize
        ensures { result ≡ length self.now }
    {
        self.stays.len()
    }

    /// Puts the pin in front of the others, unless one of them has its name. The only error is out of memory.
    pub(crate) fn add(&mut self, set: SetPin) -> Result<(), AllocFailed<(PinId, Stay)>>
        ensures { OnOk result (self.new ≡ (if is_named set.name self.old then self.old else set_pin set set.moment ∷ self.old)) }
    {
        if self.stays.contains_key(&set.name) {
            return Ok(());
        }
        let stay = Stay {
            server: set.server,
            cost: set.cost,
            moment: set.moment,
        };
        self.stays.insert(set.name, stay)?;
        Ok(())
    }

    /// The pins in order of last use.
    pub(crate) fn into_sets(self, alloc: Global) -> Result<Vec<SetPin>, AllocError>
        ensures { IfOk result (λ sets. map (λ s. set_pin s s.moment) sets.items ≡ self) }
    {
        let mut stays = self.stays;
        let mut sets = Vec::with_capacity(alloc, stays.len())?;
        while let Some((name, stay)) = stays.pop() {
            sets.push(SetPin {
                name,
                server: stay.server,
                cost: stay.cost,
                moment: stay.moment,
            })?;
        }
        Ok(sets)
    }
}

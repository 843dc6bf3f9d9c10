ghost use Rattle.std.specs.Prelude.{◌≡◌, IfOk};
ghost use Rattle.pin_table.specs.Counted.{listed};
ghost use Rattle.pin_table.specs.Pins.{held_pin};

use crate::Held;
use pin_recent::{RecentCopy, Rests};
use pin_set::{Pin, PinId, TablePin};
use std::alloc::{AllocError, Global};
use std::marker::Model;

/// The pins of a table at one moment, in order of last use, the one that wasn't used for longest first. It is seen as the list of
/// them.
///
/// The pins are kept as the table kept them, so that a table is copied in one pass through memory; `rows` puts them into order.
#[derive(Drop)]
pub struct TableCopy {
    pins: RecentCopy<PinId, Held>,
}

impl Model for TableCopy {
    ghost use Rattle.std.specs.Prelude.{List};
    ghost use Rattle.pin_set.specs.declared.table_pin.TablePin.{TablePin};
    ghost use Rattle.pin_table.specs.Counted.{listed};

    ghost Value = { List TablePin };

    ghost view = { λ copy. listed copy.pins };
}

impl TableCopy {
    pub(crate) fn of(pins: RecentCopy<PinId, Held>) -> Self
        ensures { result ≡ listed pins }
    {
        TableCopy { pins }
    }

    /// The pins as a list, in order of last use.
    ///
    /// It costs one walk over the pins, which lie anywhere in memory, with these rests, and a copy of each key, and hashes nothing. It
    /// allocates memory for the list and for the keys that are text. The only error is out of memory.
    pub fn rows<P: Rests>(&self, alloc: Global, rests: &P) -> Result<Vec<TablePin>, AllocError>
        ensures { IfOk result (λ rows. rows.items ≡ self.now) }
    {
        let mut rows = Vec::with_capacity(alloc, self.pins.len())?;
        for (name, held) in self.pins.iter() {
            let row = row_of(name, *held)?;
            rows.push(row)?;
            rests.rest_after(rows.len());
        }
        Ok(rows)
    }
}

/// A copy of the pin of this name.
fn row_of(name: &PinId, held: Held) -> Result<TablePin, AllocError>
    ensures { IfOk result (λ row. row ≡ held_pin name.now held) }
{
    let pin = Pin {
        id: name.clone()?,
        place: held.place,
        cost: held.cost,
    };
    Ok(TablePin {
        pin,
        last_use: held.last_use,
    })
}

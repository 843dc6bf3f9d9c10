//! Pins that go where moves send them.
ghost use Rattle.std.specs.Prelude.{◌≡◌, ◌^◌, ◌<◌, ◌≤◌, All, IfOk, sum_by};
ghost use Rattle.pin_table.specs.declared.table_kind.TableKind.{TableKind as AnyKind};
ghost use Rattle.pin_table.specs.Kinds.{counted_of};
ghost use Rattle.pin_table.specs.Placing.{IsToGo, Goes, arriving};

use crate::{Held, TableKind};
use pin_counts::Counts;
use pin_moves::{Move, Moving};
use pin_recent::Change;
use pin_set::PinId;
use std::alloc::{AllocError, Global};

impl Change<PinId, Held> for Moving {
    ghost accepts = { IsToGo };

    ghost changes = { Goes };

    fn change(&mut self, name: &PinId, held: &mut Held) {
        held.place = self.next(held.place, name.want, held.cost);
    }
}

/// How many pins there will be of each kind once the moves are made.
pub(crate) fn counts_after(alloc: Global, moves: &[Move]) -> Result<Counts<TableKind>, AllocError>
    requires some { All (λ m. 1 ≤ m.count) moves.now }
    requires few { sum_by (λ m. m.count) moves.now < 2 ^ 32 }
    ensures { IfOk result (λ counts. (kind : AnyKind) → counted_of counts kind ≡ arriving moves.now kind) }
{
    let mut counts = Counts::new(alloc);
    for a_move in moves {
        let kind = TableKind {
            place: a_move.to,
            want: a_move.want,
            cost: a_move.cost,
        };
        counts.add_many(kind, u64::from(a_move.count))?;
    }
    Ok(counts)
}

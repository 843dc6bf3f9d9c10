ghost use Rattle.std.specs.Prelude.{◌≡◌, [], ◌∷◌};
ghost use Rattle.lb_desk_tie.specs.Receipts.{new_keeper};

use crate::keeper::Keeper;
use crate::tables::Tables;
use crate::view::{KeeperSeat, Word};
use std::alloc::{AllocError, Global};
use std::marker::Model;

/// A table for one keeper, which has no number yet. Contracts see which table it is.
#[derive(Drop)]
pub struct Opened<E> {
    word: Word<E>,
    seat: KeeperSeat<E>,
}

impl<E> Model for Opened<E> {
    ghost use Rattle.std.specs.Prelude.{◌≡◌, []};
    ghost use Rattle.atomic_table.specs.Seated.{TableId};
    ghost use Rattle.lb_desk_tie.specs.Rule.{keeper_view};

    ghost Value = { TableId };

    ghost view = { λ o. o.word.shared.table_id };

    ghost invariant = { λ o. (o.word.shared.table_id.words ≡ 1)
        × (o.seat.table_id ≡ o.word.shared.table_id)
        × (o.seat.me ≡ (keeper_view [] 0 [] [], [])) };
}

impl<E: Drop> Opened<E> {
    /// A new table. It takes one block of memory, of a few words.
    pub fn new(alloc: Global) -> Result<Self, AllocError> {
        let (word, seat) = Word::of_words(alloc, &[0], &())?;
        Ok(Opened { word, seat })
    }

    /// The keeper of this number, with no entry and no pass.
    pub fn named<B: Tables>(self, number: u64) -> Keeper<E, B>
        requires { self ≡ B.table_of number }
        ensures { result ≡ new_keeper number }
    {
        let Opened { word, seat } = self;
        Keeper::of(number, word, seat)
    }
}

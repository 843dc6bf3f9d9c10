ghost use Rattle.std.specs.Prelude.{◌≡◌, ◌+◌, ◌^◌, ◌<◌, [], ◌∷◌, ◌++◌, length};
ghost use Rattle.lb_desk_tie.specs.Receipts.{PassView, IsSound, new_pass, with_receipt, with_sight, rises};
ghost use Rattle.lb_desk_tie.specs.Rule.{keeper_view, pass_view};

use crate::steps;
use crate::tables::Tables;
use crate::view::{KeeperSeat, View, Word};
use atomic_table::Badge;
use std::marker::{Model, PhantomData};
use std::mem;

/// The receipts of one caller, and its sights: the history as it was each time that the caller looked at it without adding to it.
///
/// It takes 24 bytes, however many it has of both. A pass that is dropped never comes back to its keeper, so its keeper
/// can't be settled any more.
#[derive(Drop)]
pub struct Pass<E, B: Tables> {
    keeper: u64,
    // One more than the last number; 0 before the first.
    next: u64,
    rising: bool,
    badge: Badge<View<E>>,
    tables: PhantomData<B>,
}

impl<E, B: Tables> Model for Pass<E, B> {
    ghost use Rattle.std.specs.Prelude.{◌≡◌, [], ◌∷◌};
    ghost use Rattle.lb_desk_tie.specs.Receipts.{PassView, rises};
    ghost use Rattle.lb_desk_tie.specs.Rule.{pass_view, list_of, sights_in, next_from};

    ghost Value = { PassView E };

    ghost view = { λ p. record { keeper = p.keeper; receipts = list_of p.badge.views; sights = sights_in p.badge.views } };

    ghost invariant = { λ p. (p.badge.table_id ≡ B.table_of p.keeper)
        × (p.badge.views ≡ pass_view (list_of p.badge.views) (sights_in p.badge.views) ∷ [])
        × (p.next ≡ next_from 0 (list_of p.badge.views))
        × (p.rising ≡ rises (list_of p.badge.views)) };
}

impl<E, B: Tables> Pass<E, B> {
    /// A pass of the keeper of this number, from its badge.
    pub(crate) fn of(keeper: u64, badge: Badge<View<E>>) -> Self
        requires table { badge.table_id ≡ B.table_of keeper }
        requires views { badge.views ≡ pass_view [] [] ∷ [] }
        ensures { result ≡ new_pass keeper }
    {
        Pass {
            keeper,
            next: 0,
            rising: true,
            badge,
            tables: PhantomData,
        }
    }

    /// The number of the keeper that gave it out.
    pub fn keeper(&self) -> u64
        ensures { result ≡ self.now.keeper }
    {
        self.keeper
    }

    /// The receipt of an entry goes to the end of the pass, and the entry to the end of the history. The receipts before it are
    /// in the history before it.
    pub(crate) fn add(&mut self, word: &Word<E>, seat: &mut KeeperSeat<E>, number: u64, entry: &E)
        requires table { seat.old.table_id ≡ B.table_of self.old.keeper }
        requires word { seat.old.table_id ≡ word.now.shared.table_id }
        requires one_word { word.now.shared.table_id.words ≡ 1 }
        requires keeper { seat.old.me ≡ (keeper_view seat.old.me.0.history seat.old.me.0.passes [] [], []) }
        requires number { number ≡ length seat.old.me.0.history }
        requires room { number + 1 < 2 ^ 64 }
        ensures table { seat.new.table_id ≡ seat.old.table_id }
        ensures keeper { seat.new.me
            ≡ (keeper_view (seat.old.me.0.history ++ entry.now ∷ []) seat.old.me.0.passes [] [], []) }
        ensures pass { self.new ≡ with_receipt self.old (number, entry.now) }
        ensures sound { IsSound seat.old.me.0.history self.old.receipts }
    {
        let badge = mem::replace(&mut self.badge, Badge::blank());
        self.badge = steps::tell(word, seat, badge, number, entry);
        self.rising = self.rising & (self.next <= number);
        self.next = number + 1;
    }

    /// The pass gets a sight of the history, in which its receipts are. The keeper stays as it is.
    pub(crate) fn see(&mut self, word: &Word<E>, seat: &mut KeeperSeat<E>)
        requires table { seat.old.table_id ≡ B.table_of self.old.keeper }
        requires word { seat.old.table_id ≡ word.now.shared.table_id }
        requires one_word { word.now.shared.table_id.words ≡ 1 }
        requires keeper { seat.old.me ≡ (keeper_view seat.old.me.0.history seat.old.me.0.passes [] [], []) }
        ensures table { seat.new.table_id ≡ seat.old.table_id }
        ensures keeper { seat.new.me ≡ seat.old.me }
        ensures pass { self.new ≡ with_sight self.old seat.old.me.0.history }
        ensures sound { IsSound seat.old.me.0.history self.old.receipts }
    {
        let badge = mem::replace(&mut self.badge, Badge::blank());
        self.badge = steps::see(word, seat, badge);
    }

    /// Gives the pass back to its keeper, and returns whether its numbers rise.
    pub(crate) fn take_into(self, word: &Word<E>, seat: &mut KeeperSeat<E>) -> bool
        requires table { seat.old.table_id ≡ B.table_of self.keeper }
        requires word { seat.old.table_id ≡ word.now.shared.table_id }
        requires one_word { word.now.shared.table_id.words ≡ 1 }
        requires keeper { seat.old.me
            ≡ (
              keeper_view
                  seat.old.me.0.history
                  seat.old.me.0.passes
                  seat.old.me.0.lists
                  seat.old.me.0.sights,
              [],
            ) }
        ensures table { seat.new.table_id ≡ seat.old.table_id }
        ensures keeper { seat.new.me
            ≡ (
              keeper_view
                  seat.old.me.0.history
                  seat.old.me.0.passes
                  (self.receipts ∷ seat.old.me.0.lists)
                  (self.sights ++ seat.old.me.0.sights),
              [],
            ) }
        ensures rising { result ≡ rises self.receipts }
    {
        let Pass {
            keeper: _,
            next: _,
            rising,
            badge,
            tables: _,
        } = self;
        steps::take_in(word, seat, badge);
        rising
    }
}

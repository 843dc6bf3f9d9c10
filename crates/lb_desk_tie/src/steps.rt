//! The steps on the word, over a seat and badges, with no run-time record.
ghost use Rattle.std.specs.Prelude.{◌≡◌, ◌+◌, ◌^◌, ◌<◌, ◌≤◌, [], ◌∷◌, ◌++◌, length};
ghost use Rattle.lb_desk_tie.specs.Receipts.{Each, IsSound, IsBeginningOf, Shares};
ghost use Rattle.lb_desk_tie.specs.Rule.{keeper_view, pass_view, list_of, sights_in};

use crate::view::{Admit, Count, Hand, KeeperSeat, Look, See, View, Word};
use atomic_table::Badge;

/// A pass with no receipt.
pub(crate) fn admit<E>(word: &Word<E>, seat: &mut KeeperSeat<E>) -> Badge<View<E>>
    requires table { seat.old.table_id ≡ word.now.shared.table_id }
    requires one_word { word.now.shared.table_id.words ≡ 1 }
    requires keeper { seat.old.me ≡ (keeper_view seat.old.me.0.history seat.old.me.0.passes [] [], []) }
    ensures table { seat.new.table_id ≡ seat.old.table_id }
    ensures keeper { seat.new.me ≡ (keeper_view seat.old.me.0.history (seat.old.me.0.passes + 1) [] [], []) }
    ensures pass_table { result.table_id ≡ seat.old.table_id }
    ensures pass { result.views ≡ pass_view [] [] ∷ [] }
{
    word.shared.split_seat::<Admit>(seat).into_badge()
}

/// The entry goes to the end of the history, and its receipt to the end of the pass, whose receipts are sound.
pub(crate) fn tell<E>(
    word: &Word<E>,
    seat: &mut KeeperSeat<E>,
    pass: Badge<View<E>>,
    number: u64,
    entry: &E,
) -> Badge<View<E>>
    requires table { seat.old.table_id ≡ word.now.shared.table_id }
    requires one_word { word.now.shared.table_id.words ≡ 1 }
    requires keeper { seat.old.me ≡ (keeper_view seat.old.me.0.history seat.old.me.0.passes [] [], []) }
    requires pass_table { pass.table_id ≡ seat.old.table_id }
    requires pass { pass.views ≡ pass_view (list_of pass.views) (sights_in pass.views) ∷ [] }
    requires number { number ≡ length seat.old.me.0.history }
    requires room { number + 1 < 2 ^ 64 }
    ensures table { seat.new.table_id ≡ seat.old.table_id }
    ensures keeper { seat.new.me
        ≡ (keeper_view (seat.old.me.0.history ++ entry.now ∷ []) seat.old.me.0.passes [] [], []) }
    ensures pass_table { result.table_id ≡ seat.old.table_id }
    ensures pass { result.views
        ≡ pass_view (list_of pass.views ++ (number, entry.now) ∷ []) (sights_in pass.views) ∷ [] }
    ensures sound { IsSound seat.old.me.0.history (list_of pass.views) }
{
    word.shared.join_seat::<Hand>(seat, pass.into_seat());
    word.shared
        .compare_exchange_with::<Count>(seat, 0, number, number + 1, entry);
    word.shared.split_seat::<Hand>(seat).into_badge()
}

/// The pass gets a sight of the history, and its receipts are sound. The keeper stays as it is.
pub(crate) fn see<E>(
    word: &Word<E>,
    seat: &mut KeeperSeat<E>,
    pass: Badge<View<E>>,
) -> Badge<View<E>>
    requires table { seat.old.table_id ≡ word.now.shared.table_id }
    requires one_word { word.now.shared.table_id.words ≡ 1 }
    requires keeper { seat.old.me ≡ (keeper_view seat.old.me.0.history seat.old.me.0.passes [] [], []) }
    requires pass_table { pass.table_id ≡ seat.old.table_id }
    requires pass { pass.views ≡ pass_view (list_of pass.views) (sights_in pass.views) ∷ [] }
    ensures table { seat.new.table_id ≡ seat.old.table_id }
    ensures keeper { seat.new.me ≡ seat.old.me }
    ensures pass_table { result.table_id ≡ seat.old.table_id }
    ensures pass { result.views
        ≡ pass_view (list_of pass.views) (sights_in pass.views ++ seat.old.me.0.history ∷ []) ∷ [] }
    ensures sound { IsSound seat.old.me.0.history (list_of pass.views) }
{
    word.shared.join_seat::<Hand>(seat, pass.into_seat());
    word.shared.load::<See>(seat, 0);
    word.shared.split_seat::<Hand>(seat).into_badge()
}

/// The list and the sights of the pass go in front of those in hand.
pub(crate) fn take_in<E>(word: &Word<E>, seat: &mut KeeperSeat<E>, pass: Badge<View<E>>)
    requires table { seat.old.table_id ≡ word.now.shared.table_id }
    requires one_word { word.now.shared.table_id.words ≡ 1 }
    requires keeper { seat.old.me
        ≡ (
          keeper_view
              seat.old.me.0.history
              seat.old.me.0.passes
              seat.old.me.0.lists
              seat.old.me.0.sights,
          [],
        ) }
    requires pass_table { pass.table_id ≡ seat.old.table_id }
    requires pass { pass.views ≡ pass_view (list_of pass.views) (sights_in pass.views) ∷ [] }
    ensures table { seat.new.table_id ≡ seat.old.table_id }
    ensures keeper { seat.new.me
        ≡ (
          keeper_view
              seat.old.me.0.history
              seat.old.me.0.passes
              (list_of pass.views ∷ seat.old.me.0.lists)
              (sights_in pass.views ++ seat.old.me.0.sights),
          [],
        ) }
{
    word.shared.join_seat::<Hand>(seat, pass.into_seat());
}

/// Each sight in hand is a beginning of the history. With as many lists in hand as there are passes, they share it out.
pub(crate) fn settle<E>(word: &Word<E>, seat: &mut KeeperSeat<E>)
    requires table { seat.old.table_id ≡ word.now.shared.table_id }
    requires one_word { word.now.shared.table_id.words ≡ 1 }
    requires keeper { seat.old.me
        ≡ (
          keeper_view
              seat.old.me.0.history
              seat.old.me.0.passes
              seat.old.me.0.lists
              seat.old.me.0.sights,
          [],
        ) }
    requires all { seat.old.me.0.passes ≤ length seat.old.me.0.lists }
    ensures passes { length seat.old.me.0.lists ≡ seat.old.me.0.passes }
    ensures share { Shares seat.old.me.0.history seat.old.me.0.lists }
    ensures sights { Each (IsBeginningOf seat.old.me.0.history) seat.old.me.0.sights }
{
    word.shared.load::<Look>(seat, 0);
}

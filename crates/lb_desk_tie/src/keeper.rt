ghost use Rattle.std.specs.Prelude.{◌≡◌, ◌+◌, ◌^◌, ◌<◌, ◌≤◌, true, nat_lt, [], ◌∷◌, ◌++◌, length, vec_len};
ghost use Rattle.lb_desk_tie.specs.Receipts.{KeeperView, PassView, Each, IsSound, IsBeginningOf, new_keeper, with_entry, with_pass, new_pass, with_receipt, with_sight, receipts_of, sights_of, AreOf, Shares};
ghost use Rattle.lb_desk_tie.specs.Rule.{keeper_view};

use crate::pass::Pass;
use crate::steps;
use crate::tables::Tables;
use crate::view::{KeeperSeat, Word};
use std::marker::{Model, PhantomData};

/// Knows the whole history, and what it gave out. It lies beside the journal, under one lock with it.
///
/// No call allocates, and none but `settle` costs more than a few machine instructions and one to three atomic steps.
#[derive(Drop)]
pub struct Keeper<E, B: Tables> {
    number: u64,
    count: u64,
    // How many passes were given out, or the greatest number of its type. The seat has the exact number, which contracts see.
    out: u128,
    word: Word<E>,
    seat: KeeperSeat<E>,
    tables: PhantomData<B>,
}

impl<E, B: Tables> Model for Keeper<E, B> {
    ghost use Rattle.std.specs.Prelude.{◌≡◌, ◌<◌, ◌≤◌, ◌^◌, [], length};
    ghost use Rattle.lb_desk_tie.specs.Receipts.{KeeperView};
    ghost use Rattle.lb_desk_tie.specs.Rule.{keeper_view};

    ghost Value = { KeeperView E };

    ghost view = { λ k. record { number = k.number; history = k.seat.me.0.history; passes = k.seat.me.0.passes } };

    ghost invariant = { λ k. (k.word.shared.table_id ≡ B.table_of k.number)
        × (k.word.shared.table_id.words ≡ 1)
        × (k.seat.table_id ≡ k.word.shared.table_id)
        × (k.seat.me ≡ (keeper_view k.seat.me.0.history k.seat.me.0.passes [] [], []))
        × (k.out ≤ k.seat.me.0.passes)
        × (k.out < 2 ^ 64 → k.out ≡ k.seat.me.0.passes)
        × (k.count ≡ length k.seat.me.0.history) };
}

impl<E: Drop, B: Tables> Keeper<E, B> {
    pub(crate) fn of(number: u64, word: Word<E>, seat: KeeperSeat<E>) -> Self
        requires table { word.shared.table_id ≡ B.table_of number }
        requires one_word { word.shared.table_id.words ≡ 1 }
        requires seat { seat.table_id ≡ word.shared.table_id }
        requires first { seat.me ≡ (keeper_view [] 0 [] [], []) }
        ensures { result ≡ new_keeper number }
    {
        Keeper {
            number,
            count: 0,
            out: 0,
            word,
            seat,
            tables: PhantomData,
        }
    }

    /// Which keeper it is.
    pub fn number(&self) -> u64
        ensures { result ≡ self.now.number }
    {
        self.number
    }

    /// How many entries the history has.
    pub fn count(&self) -> u64
        ensures { result ≡ length self.now.history }
    {
        self.count
    }

    /// Whether so many passes are fewer than were given out. It is exact, however many were.
    pub fn lacks(&self, passes: usize) -> bool
        ensures { result ≡ nat_lt passes self.now.passes }
    {
        (passes as u128) < self.out
    }

    /// A new pass, with no receipt. It is never refused, however many were given out.
    pub fn enter(&mut self) -> Pass<E, B>
        ensures keeper { self.new ≡ with_pass self.old }
        ensures pass { result ≡ new_pass self.old.number }
    {
        let badge = steps::admit(&self.word, &mut self.seat);
        self.out = self.out.saturating_add(1);
        Pass::of(self.number, badge)
    }

    /// Records an entry of the pass's caller, and answers its number in the history. All receipts that the pass had are in the
    /// history before that entry.
    pub fn record(&mut self, pass: &mut Pass<E, B>, entry: &E) -> u64
        requires keeper { pass.old.keeper ≡ self.old.number }
        requires room { length self.old.history + 1 < 2 ^ 64 }
        ensures number { result ≡ length self.old.history }
        ensures keeper { self.new ≡ with_entry self.old entry.now }
        ensures pass { pass.new ≡ with_receipt pass.old (result, entry.now) }
        ensures sound { IsSound self.old.history pass.old.receipts }
    {
        let number = self.count;
        pass.add(&self.word, &mut self.seat, number, entry);
        self.count = number + 1;
        number
    }

    /// The pass gets a sight of the history as it is now, in which all its receipts are. At run time nothing changes.
    pub fn see(&mut self, pass: &mut Pass<E, B>)
        requires { pass.old.keeper ≡ self.old.number }
        ensures keeper { self.new ≡ self.old }
        ensures pass { pass.new ≡ with_sight pass.old self.old.history }
        ensures sound { IsSound self.old.history pass.old.receipts }
    {
        pass.see(&self.word, &mut self.seat);
    }

    /// Takes all passes back. Their receipts share out the history, and each of their sights is a beginning of it. It answers that in
    /// each pass a later call has a greater number. It costs a few machine instructions a pass.
    pub fn settle(self, mut passes: Vec<Pass<E, B>>) -> bool
        requires own { AreOf self.number passes.items }
        requires all { self.passes ≤ vec_len passes }
        ensures rising { result ≡ true }
        ensures passes { vec_len passes ≡ self.passes }
        ensures share { Shares self.history (receipts_of passes.items) }
        ensures sights { Each (IsBeginningOf self.history) (sights_of passes.items) }
    {
        let Keeper {
            number: _,
            count: _,
            out: _,
            word,
            mut seat,
            tables: _,
        } = self;
        let mut rising = true;
        while let Some(pass) = passes.pop() {
            rising = pass.take_into(&word, &mut seat) & rising;
        }
        steps::settle(&word, &mut seat);
        rising
    }
}

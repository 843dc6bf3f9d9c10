//! Pins in order of last use, with their counts.
ghost use Rattle.std.specs.Prelude.{◌≡◌, ℕ, ◌+◌, ◌^◌, ◌<◌, ◌≤◌, true, [], ◌∷◌, ◌++◌, All, AllPairs, Some, IfErr, IfOk, IfSome, IfNone, OnOk, OnErr, length, drop, slice_get};
ghost use Rattle.std.specs.Map.Iter.{ShowsInOrder, deref_pair};
ghost use Rattle.std.specs.Option.{option_map};
ghost use Rattle.pin_counts.specs.Counts.{AreRising};
ghost use Rattle.lb_desk_model.specs.Serves.{IsNew};
ghost use Rattle.pin_table.specs.declared.table_kind.TableKind.{TableKind as AnyKind};
ghost use Rattle.pin_table.specs.Counted.{AreApart, used_pins};
ghost use Rattle.pin_table.specs.Kinds.{AreCounts, ArePinCounts};
ghost use Rattle.pin_table.specs.Pins.{held_pin, Stands, IsTakenOut, IsUsed};
ghost use Rattle.pin_table.specs.Placed.{AreMovesOf, ArePlaced};
ghost use Rattle.pin_moves.specs.Moves.{AreRisingCounts, move_before};

use crate::placing::counts_after;
use crate::{Held, TableCopy, TableKind, TableRoom};
use lb_types::{Moment, ServerId};
use pin_counts::Counts;
use pin_moves::{Move, Moving};
use pin_recent::Recent;
use pin_set::{PinCount, PinId};
use std::alloc::{AllocError, Global};
use std::collections::btree_map::Iter;
use std::hash::BuildHasher;
use std::marker::Model;

/// Pins in order of last use, with their counts.
#[derive(Drop)]
pub(crate) struct CountedPins<S: BuildHasher> {
    pins: Recent<PinId, Held, S>,
    counts: Counts<TableKind>,
}

impl<S: BuildHasher> Model for CountedPins<S> {
    ghost use Rattle.pin_table.specs.Counted.{UsedPins, AreCounted, listed, used_pins};

    ghost Value = { UsedPins };

    ghost view = { λ c. used_pins (listed c.pins.pairs) c.pins.uses };

    ghost invariant = { λ c. AreCounted (listed c.pins.pairs) c.counts };
}

impl<S: BuildHasher> CountedPins<S> {
    /// No pin. It allocates nothing.
    pub(crate) fn new(alloc: Global, hasher: S) -> Self
        ensures { result ≡ used_pins [] 0 }
    {
        CountedPins {
            pins: Recent::new(alloc, hasher),
            counts: Counts::new(alloc),
        }
    }

    /// How many pins there are.
    pub(crate) fn len(&self) -> usize
        ensures exact { result ≡ length self.now.pins }
        ensures apart { AreApart self.now.pins }
    {
        self.pins.len()
    }

    /// How many uses there were.
    pub(crate) fn uses(&self) -> u64
        ensures { result ≡ self.now.uses }
    {
        self.pins.uses()
    }

    /// What is held of the pin of this name.
    pub(crate) fn find(&self, name: &PinId) -> Option<Held>
        ensures some { IfSome result (λ held. Stands name.now held self.now.pins) }
        ensures none { IfNone result (IsNew name.now self.now.pins) }
    {
        self.pins.find(name).copied()
    }

    /// The name of the pin that wasn't used for longest, and what is held of it.
    pub(crate) fn oldest(&self) -> Option<(&PinId, Held)>
        ensures { option_map (λ p. held_pin p.0.now p.1) result ≡ slice_get self.now.pins 0 }
    {
        let (name, held) = self.pins.oldest()?;
        Some((name, *held))
    }

    /// A use of the pin where it is.
    pub(crate) fn keep(&mut self, name: &PinId, held: Held, now: Moment)
        requires stands { Stands name.now held self.old.pins }
        requires uses { self.old.uses < 2 ^ 63 }
        ensures used { IsUsed name.now held.place now self.old.pins self.new.pins }
        ensures uses { self.new.uses ≡ self.old.uses + 1 }
    {
        let used = Held {
            place: held.place,
            cost: held.cost,
            last_use: now,
        };
        let _ = self.pins.touch(name, used);
    }

    /// A use of the pin at a server. It may need memory for a count; a refusal changes nothing.
    pub(crate) fn move_to(
        &mut self,
        name: &PinId,
        held: Held,
        server: ServerId,
        now: Moment,
    ) -> Result<(), AllocError>
        requires stands { Stands name.now held self.old.pins }
        requires uses { self.old.uses < 2 ^ 63 }
        requires few { length self.old.pins < 2 ^ 32 }
        ensures used { OnOk result (IsUsed name.now (Some server) now self.old.pins self.new.pins) }
        ensures uses { OnOk result (self.new.uses ≡ self.old.uses + 1) }
        ensures err { OnErr result (self.new ≡ self.old) }
    {
        let moved = Held {
            place: Some(server),
            cost: held.cost,
            last_use: now,
        };
        let from = TableKind::of(name, &held);
        let to = TableKind::of(name, &moved);
        self.counts.change(from, to)?;
        let _ = self.pins.touch(name, moved);
        Ok(())
    }

    /// Each pin goes where the moves send it. It needs memory for the counts; a refusal changes nothing.
    pub(crate) fn set_places(&mut self, alloc: Global, moves: Vec<Move>) -> Result<(), AllocError>
        requires rising { AllPairs (λ a b. move_before a b ≡ true) moves.items }
        requires some { All (λ m. 1 ≤ m.count) moves.items }
        requires of_pins { AreMovesOf self.old.pins moves.items }
        requires few { length self.old.pins < 2 ^ 32 }
        ensures ok { OnOk result (ArePlaced moves.items self.old.pins self.new.pins) }
        ensures len { length self.new.pins ≡ length self.old.pins }
        ensures uses { self.new.uses ≡ self.old.uses }
        ensures err { OnErr result (self.new ≡ self.old) }
    {
        // What may be refused comes before the pass, which can't be undone.
        let counts = counts_after(alloc, &moves)?;
        let mut moving = Moving::new(moves);
        self.pins.change_values(&mut moving);
        self.counts = counts;
        Ok(())
    }

    /// Appends a pin whose name is new. Fails, with the name handed back, where there is no memory; then nothing has changed.
    pub(crate) fn push(&mut self, name: PinId, held: Held) -> Result<(), PinId>
        requires absent { IsNew name self.old.pins }
        requires uses { self.old.uses < 2 ^ 63 }
        requires few { length self.old.pins < 2 ^ 32 }
        ensures ok { OnOk result (self.new ≡ used_pins (self.old.pins ++ held_pin name held ∷ []) (self.old.uses + 1)) }
        ensures err { OnErr result (self.new ≡ self.old) }
        ensures name_returned { IfErr result (λ returned. returned ≡ name) }
    {
        if self.counts.add(TableKind::of(&name, &held)).is_err() {
            return Err(name);
        }
        if let Err(failed) = self.pins.push(name, held) {
            let (name, held) = failed.value;
            self.counts.remove(TableKind::of(&name, &held));
            return Err(name);
        }
        Ok(())
    }

    /// Takes out the pin that wasn't used for longest, without memory.
    pub(crate) fn pop_oldest(&mut self) -> Option<(PinId, Held)>
        requires { self.old.uses ≤ 2 ^ 63 }
        ensures oldest { option_map (λ p. held_pin p.0 p.1) result ≡ slice_get self.old.pins 0 }
        ensures left { self.new ≡ used_pins (drop 1 self.old.pins) self.old.uses }
    {
        let (name, held) = self.pins.pop_oldest()?;
        self.counts.remove(TableKind::of(&name, &held));
        Some((name, held))
    }

    /// Takes the pin of this name out, without memory. Where there is none, nothing changes.
    pub(crate) fn take_out(&mut self, name: &PinId) -> Option<Held>
        requires { self.old.uses ≤ 2 ^ 63 }
        ensures some { IfSome result (λ held. IsTakenOut name.now held self.old.pins self.new.pins) }
        ensures none { IfNone result (IsNew name.now self.old.pins) }
        ensures kept { IfNone result (self.new ≡ self.old) }
        ensures len { length self.new.pins ≤ length self.old.pins }
        ensures uses { self.new.uses ≡ self.old.uses }
    {
        let held = self.pins.take_out(name)?;
        self.counts.remove(TableKind::of(name, &held));
        Some(held)
    }

    /// Lets the pin go that wasn't used for longest.
    pub(crate) fn purge(&mut self)
        requires { self.old.uses ≤ 2 ^ 63 }
        ensures { self.new ≡ used_pins (drop 1 self.old.pins) self.old.uses }
    {
        let _ = self.pop_oldest();
    }

    /// Lets all pins go.
    pub(crate) fn clear(&mut self)
        ensures { self.new ≡ used_pins [] self.old.uses }
    {
        self.pins.clear();
        self.counts.clear();
    }

    /// A copy of the pins.
    pub(crate) fn copy(&self, alloc: Global, room: TableRoom) -> Result<TableCopy, AllocError>
        ensures { IfOk result (λ copy. copy ≡ self.now.pins) }
    {
        let pins = self.pins.copy(alloc, room.pins)?;
        Ok(TableCopy::of(pins))
    }

    /// How many pins there are of each kind, for the kinds that there are, in rising order.
    pub(crate) fn counts(&self) -> Iter<'_, TableKind, u64>
        ensures rising { AreRising ⟦<TableKind as Ord>⟧.cmp result }
        ensures exact { AreCounts self.now.pins result }
        ensures runs { ShowsInOrder (deref_pair {K = AnyKind} {X = ℕ}) }
    {
        self.counts.iter()
    }

    /// The same counts as a list, as the moves of a plan are shared out among them.
    pub(crate) fn pin_counts(&self, alloc: Global) -> Result<Vec<PinCount>, AllocError>
        ensures rising { IfOk result (λ counts. AreRisingCounts counts.items) }
        ensures exact { IfOk result (λ counts. ArePinCounts self.now.pins counts.items) }
    {
        let mut counts = Vec::with_capacity(alloc, self.counts.len())?;
        for (kind, count) in self.counts.iter() {
            counts.push(PinCount {
                place: kind.place,
                want: kind.want,
                cost: kind.cost,
                count: *count,
            })?;
        }
        Ok(counts)
    }
}

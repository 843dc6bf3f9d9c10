ghost use Rattle.std.specs.Prelude.{◌≡◌, ℕ, ◌+◌, ◌^◌, ◌<◌, ◌≤◌, true, [], ◌∷◌, ◌++◌, All, AllPairs, Some, IsErr, IfErr, IfOk, IfSome, IfNone, OnOk, OnErr, length, drop, slice_get};
ghost use Rattle.std.specs.Map.Iter.{ShowsInOrder, deref_pair};
ghost use Rattle.std.specs.Option.{option_map};
ghost use Rattle.pin_counts.specs.Counts.{AreRising};
ghost use Rattle.lb_desk_model.specs.Serves.{IsNew};
ghost use Rattle.pin_table.specs.declared.table_kind.TableKind.{TableKind as AnyKind};
ghost use Rattle.pin_table.specs.Kinds.{AreCounts, ArePinCounts};
ghost use Rattle.pin_table.specs.Pins.{held_pin, made_pin, Stands, IsTakenOut, IsUsed};
ghost use Rattle.pin_table.specs.Placed.{AreMovesOf, ArePlaced};
ghost use Rattle.pin_moves.specs.Moves.{AreRisingCounts, move_before};
ghost use Rattle.pin_table.specs.Tables.{IsTable, IsRefusal, after_use, is_closed, is_full, staying, table_of_parts, with_pins};

use crate::counted_pins::CountedPins;
use crate::{Held, InsertFault, NotInserted, TableCopy, TableKind, TableRoom};
use lb_types::{Moment, ServerId, TableSettings};
use pin_moves::Move;
use pin_set::{PinCount, PinId};
use std::alloc::{AllocError, Global};
use std::collections::btree_map::Iter;
use std::hash::BuildHasher;
use std::marker::Model;

/// The pins of one backend, in order of last use.
///
/// A pin that is made, kept or moved is used, and stands last then; a look-up is no use. Each pin takes one look-up by hash in
/// each call that names it, and what `pin_recent::Recent` says beside.
#[derive(Drop)]
pub struct Table<S: BuildHasher> {
    pins: CountedPins<S>,
    size: u32,
    no_purge: bool,
    version: u64,
}

impl<S: BuildHasher> Model for Table<S> {
    ghost use Rattle.pin_table.specs.Counted.{IsSized};
    ghost use Rattle.pin_table.specs.Placed.{AreMovesOf, ArePlaced};
    ghost use Rattle.pin_moves.specs.Moves.{AreRisingCounts, move_before};
    ghost use Rattle.pin_table.specs.Tables.{TableParts, table_of_parts};

    ghost Value = { TableParts };

    ghost view = { λ t. table_of_parts t.pins.pins t.size t.no_purge t.pins.uses t.version };

    ghost invariant = { λ t. IsSized t.pins.pins t.size };
}

impl<S: BuildHasher> Table<S> {
    /// An empty table, at version 0. It allocates nothing until the first pin. The hasher finds the pins, and no promise depends
    /// on it: with a seeded one nobody can choose keys that collide.
    pub fn new(alloc: Global, settings: TableSettings, hasher: S) -> Self
        ensures { result ≡ table_of_parts [] settings.size settings.no_purge 0 0 }
    {
        Table {
            pins: CountedPins::new(alloc, hasher),
            size: settings.size,
            no_purge: settings.no_purge,
            version: 0,
        }
    }

    /// How many pins there are.
    pub fn len(&self) -> usize
        ensures exact { result ≡ length self.now.pins }
        ensures lawful { IsTable self.now }
    {
        self.pins.len()
    }

    /// Whether there are as many pins as there may be.
    pub fn is_full(&self) -> bool
        ensures { result ≡ is_full self.now }
    {
        self.pins.len() >= self.size as usize
    }

    /// How many uses there were.
    pub fn uses(&self) -> u64
        ensures { result ≡ self.now.uses }
    {
        self.pins.uses()
    }

    /// The version of the backend's view.
    pub fn version(&self) -> u64
        ensures { result ≡ self.now.version }
    {
        self.version
    }

    /// Counts a change of the backend's view.
    pub fn bump(&mut self)
        requires { self.old.version + 1 < 2 ^ 64 }
        ensures { self.new ≡ record self.old { version = self.old.version + 1 } }
    {
        self.version += 1;
    }

    /// What is held of the pin of this name. It is no use, and costs one look-up by hash.
    pub fn find(&self, name: &PinId) -> Option<Held>
        ensures some { IfSome result (λ held. Stands name.now held self.now.pins) }
        ensures none { IfNone result (IsNew name.now self.now.pins) }
    {
        self.pins.find(name)
    }

    /// The name of the pin that wasn't used for longest, and what is held of it. It costs a few machine instructions.
    pub fn oldest(&self) -> Option<(&PinId, Held)>
        ensures { option_map (λ p. held_pin p.0.now p.1) result ≡ slice_get self.now.pins 0 }
    {
        self.pins.oldest()
    }

    /// A use of a pin where it is, without memory. `held` is what `find` gave.
    pub fn keep(&mut self, name: &PinId, held: Held, now: Moment)
        requires stands { Stands name.now held self.old.pins }
        requires uses { self.old.uses < 2 ^ 63 }
        ensures used { IsUsed name.now held.place now self.old.pins self.new.pins }
        ensures rest { self.new ≡ after_use self.old self.new.pins }
    {
        self.pins.keep(name, held, now);
    }

    /// A use of a pin at the server, where it is from now on. `held` is what `find` gave.
    ///
    /// Fails where there is no memory for a count; then nothing has changed.
    pub fn move_to(
        &mut self,
        name: &PinId,
        held: Held,
        server: ServerId,
        now: Moment,
    ) -> Result<(), AllocError>
        requires stands { Stands name.now held self.old.pins }
        requires uses { self.old.uses < 2 ^ 63 }
        ensures used { OnOk result (IsUsed name.now (Some server) now self.old.pins self.new.pins) }
        ensures rest { OnOk result (self.new ≡ after_use self.old self.new.pins) }
        ensures err { OnErr result (self.new ≡ self.old) }
    {
        self.pins.move_to(name, held, server, now)
    }

    /// Sends each pin where the moves say, in one pass that hashes nothing. It is no use of any pin, and changes no cost and no
    /// moment. The moves have to be of exactly the pins that there are. Which of the pins of one place, wanted servers and cost goes
    /// where is free.
    ///
    /// Fails where there is no memory for the counts after the moves; then nothing has changed. Once that memory is taken nothing is
    /// refused. Each pin costs one search among the moves.
    pub fn set_places(&mut self, alloc: Global, moves: Vec<Move>) -> Result<(), AllocError>
        requires rising { AllPairs (λ a b. move_before a b ≡ true) moves.items }
        requires some { All (λ m. 1 ≤ m.count) moves.items }
        requires of_pins { AreMovesOf self.old.pins moves.items }
        ensures ok { OnOk result (ArePlaced moves.items self.old.pins self.new.pins) }
        ensures rest { self.new ≡ with_pins self.old self.new.pins }
        ensures err { OnErr result (self.new ≡ self.old) }
    {
        self.pins.set_places(alloc, moves)
    }

    /// Makes a pin at the server, which is a use of it. A full table loses the pin that wasn't used for longest, or with
    /// `no_purge` lets no pin in. The name has to be new to the table.
    ///
    /// Fails, with the name handed back, where the table is full and keeps its pins, or where there is no memory; then nothing
    /// has changed. For a moment a full table has one pin more than its size.
    pub fn insert(
        &mut self,
        name: PinId,
        server: ServerId,
        cost: u16,
        now: Moment,
    ) -> Result<(), NotInserted>
        requires absent { IsNew name self.old.pins }
        requires uses { self.old.uses < 2 ^ 63 }
        ensures ok { OnOk result (self.new ≡ after_use self.old (staying self.old ++ made_pin name server cost now ∷ [])) }
        ensures closed { is_closed self.old ≡ true → IsErr result }
        ensures refused { IfErr result (λ refusal. IsRefusal self.old name refusal) }
        ensures err { OnErr result (self.new ≡ self.old) }
    {
        let full = self.is_full();
        if full && self.no_purge {
            return Err(NotInserted {
                name,
                fault: InsertFault::TableFull,
            });
        }
        let held = Held {
            place: Some(server),
            cost,
            last_use: now,
        };
        // What may be refused comes before the purge, which can't be undone.
        if let Err(name) = self.pins.push(name, held) {
            return Err(NotInserted {
                name,
                fault: InsertFault::OutOfMemory,
            });
        }
        if full {
            self.pins.purge();
        }
        Ok(())
    }

    /// Takes out the pin that wasn't used for longest, without memory.
    pub fn pop_oldest(&mut self) -> Option<(PinId, Held)>
        requires { self.old.uses ≤ 2 ^ 63 }
        ensures oldest { option_map (λ p. held_pin p.0 p.1) result ≡ slice_get self.old.pins 0 }
        ensures left { self.new ≡ with_pins self.old (drop 1 self.old.pins) }
    {
        self.pins.pop_oldest()
    }

    /// Takes the pin of this name out, without memory, and gives what was held of it. It is no use of any pin. It costs two look-ups by
    /// hash.
    pub fn take_out(&mut self, name: &PinId) -> Option<Held>
        requires { self.old.uses ≤ 2 ^ 63 }
        ensures some { IfSome result (λ held. IsTakenOut name.now held self.old.pins self.new.pins) }
        ensures none { IfNone result (IsNew name.now self.old.pins) }
        ensures kept { IfNone result (self.new ≡ self.old) }
        ensures rest { self.new ≡ with_pins self.old self.new.pins }
    {
        self.pins.take_out(name)
    }

    /// Lets all pins go, without memory; what they had is kept for others. It hashes nothing, and costs one walk over the pins and
    /// over what finds them, which has the size that the table once had.
    pub fn clear(&mut self)
        ensures { self.new ≡ with_pins self.old [] }
    {
        self.pins.clear();
    }

    /// A copy of the pins, which gives them out in order of last use. It is no use of any pin.
    ///
    /// It costs one pass through the pins as they lie in memory, with a copy of each key, and hashes nothing. To put them into
    /// order is left to the copy. It allocates what the room lacks for the pins, before the pass, and memory for the keys that are
    /// text. The only error is out of memory.
    pub fn copy(&self, alloc: Global, room: TableRoom) -> Result<TableCopy, AllocError>
        ensures exact { IfOk result (λ copy. copy ≡ self.now.pins) }
    {
        self.pins.copy(alloc, room)
    }

    /// How many pins there are of each kind, for the kinds that there are, in rising order. The counts are kept as pins change,
    /// so that it costs a step for each kind.
    pub fn counts(&self) -> Iter<'_, TableKind, u64>
        ensures rising { AreRising ⟦<TableKind as Ord>⟧.cmp result }
        ensures exact { AreCounts self.now.pins result }
        ensures runs { ShowsInOrder (deref_pair {K = AnyKind} {X = ℕ}) }
    {
        self.pins.counts()
    }

    /// The same counts as a list, among which the moves of a plan can be shared out. It allocates memory for as many counts as there
    /// are kinds.
    pub fn pin_counts(&self, alloc: Global) -> Result<Vec<PinCount>, AllocError>
        ensures rising { IfOk result (λ counts. AreRisingCounts counts.items) }
        ensures exact { IfOk result (λ counts. ArePinCounts self.now.pins counts.items) }
    {
        self.pins.pin_counts(alloc)
    }
}

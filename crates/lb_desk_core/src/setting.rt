//! Pins that are set and cleared.
ghost use Rattle.std.specs.Prelude.{◌≡◌, true, false, ◌^◌, ◌&&◌, ◌<◌, ◌≤◌, ◌+◌, ◌↔◌, Some, IfOk, IsTrue, OnErr, if◌then◌else◌};
ghost use Rattle.pin_set.specs.Assignments.{is_at};
ghost use Rattle.pin_table.specs.Pins.{Stands};
ghost use Rattle.lb_desk_model.specs.Seen.{Steps};
ghost use Rattle.lb_desk_model.specs.Serves.{IsNew, is_full, keeps_pins};
ghost use Rattle.lb_desk_model.specs.Worn.{is_use};
ghost use Rattle.lb_desk_core.specs.Acting.{ActsOn, ForEach};
ghost use Rattle.lb_desk_core.specs.Core.{IsReached};
ghost use Rattle.lb_desk_core.specs.SetPins.{HasPlace, ServersExist};

use crate::backend_core::Core;
use crate::events::count;
use crate::loads::{leave, send};
use crate::parts::Parts;
use crate::serving::{copied, moves_pin};
use lb_desk_model::{Event, PinnedAs, Refusal, Reply, SetPin};
use lb_desk_pick::are_members_below;
use lb_types::{Place, ServerId};
use pin_set::PinId;
use pin_table::Held;
use std::alloc::AllocError;
use std::hash::BuildHasher;

impl<S: BuildHasher> Core<S> {
    /// Lets a pin stand at its server, where its session is, whether or not the server serves or has room.
    ///
    /// It costs at most two look-ups of the pin by hash. A pin that stands there already allocates nothing, one that comes from
    /// elsewhere allocates for a count at most, and the key is copied only when a pin is made. The only error is out of memory, and
    /// then nothing has changed.
    pub fn set(&mut self, set: &SetPin) -> Result<Reply, AllocError>
        requires version { self.old.shown.version < 2 ^ 63 }
        requires uses { self.old.uses < 2 ^ 63 }
        ensures steps { IfOk result (λ reply. Steps self.old.shown (Event.Set set.now) reply self.new.shown) }
        ensures err { OnErr result (self.new ≡ self.old) }
        ensures connections { self.new.shown.connections ≡ self.old.shown.connections }
        ensures uses { IfOk result (λ reply. self.new.uses ≡ self.old.uses + (if is_use reply then 1 else 0)) }
    {
        let reply = self.parts.set(set)?;
        count(&mut self.parts.table, moves_pin(&reply));
        Ok(reply)
    }

    /// Takes the pin of this name out, if there is one.
    ///
    /// It costs two look-ups of the pin by hash, and allocates nothing.
    pub fn clear(&mut self, name: &PinId) -> Reply
        requires version { self.old.shown.version < 2 ^ 63 }
        requires uses { self.old.uses ≤ 2 ^ 63 }
        ensures steps { Steps self.old.shown (Event.Clear name.now) result self.new.shown }
        ensures connections { self.new.shown.connections ≡ self.old.shown.connections }
        ensures uses { self.new.uses ≡ self.old.uses }
    {
        let reply = self.parts.clear(name);
        count(&mut self.parts.table, moves_pin(&reply));
        reply
    }
}

impl<S: BuildHasher> Parts<S> {
    /// A pin at its server. The version isn't counted yet.
    pub(crate) fn set(&mut self, set: &SetPin) -> Result<Reply, AllocError>
        requires reached { IsReached self.old.shown }
        requires uses { self.old.uses < 2 ^ 63 }
        ensures acts { IfOk result (λ reply. ActsOn self.old.shown (Event.Set set.now) reply self.new.shown) }
        ensures err { OnErr result (self.new ≡ self.old) }
        ensures connections { self.new.shown.connections ≡ self.old.shown.connections }
        ensures uses { IfOk result (λ reply. self.new.uses ≡ self.old.uses + (if is_use reply then 1 else 0)) }
    {
        if !self.knows(set) {
            return Ok(Reply::Refused(Refusal::NoSuchServer));
        }
        if self.settings.is_none() {
            return Ok(Reply::NoTable);
        }
        self.set_in_table(set)
    }

    /// Whether the pin's server exists, and each that its name wants.
    fn knows(&self, set: &SetPin) -> bool
        ensures { IsTrue result ↔ ServersExist self.now.shown set.now }
    {
        let servers = self.names.len();
        set.server.index() < servers && are_members_below(set.name.want, servers)
    }

    /// A pin at its server, where there is a table.
    fn set_in_table(&mut self, set: &SetPin) -> Result<Reply, AllocError>
        requires reached { IsReached self.old.shown }
        requires place { HasPlace self.old.shown set.now }
        requires uses { self.old.uses < 2 ^ 63 }
        ensures acts { IfOk result (λ reply. ActsOn self.old.shown (Event.Set set.now) reply self.new.shown) }
        ensures err { OnErr result (self.new ≡ self.old) }
        ensures connections { self.new.shown.connections ≡ self.old.shown.connections }
        ensures uses { IfOk result (λ reply. self.new.uses ≡ self.old.uses + (if is_use reply then 1 else 0)) }
    {
        let Some(held) = self.table.find(&set.name) else {
            return self.set_new(set);
        };
        if is_at(set.server, held.place) {
            return Ok(self.set_kept(set, held));
        }
        self.set_moved(set, held)
    }

    /// A pin that stands at its server is used.
    fn set_kept(&mut self, set: &SetPin, held: Held) -> Reply
        requires place { HasPlace self.old.shown set.now }
        requires stands { Stands set.now.name held self.old.shown.pins }
        requires at { is_at set.now.server held.place ≡ true }
        requires uses { self.old.uses < 2 ^ 63 }
        ensures acts { ActsOn self.old.shown (Event.Set set.now) result self.new.shown }
        ensures connections { self.new.shown.connections ≡ self.old.shown.connections }
        ensures uses { self.new.uses ≡ self.old.uses + 1 }
        ensures is_use { is_use result ≡ true }
    {
        let now = self.moment_of(set.moment);
        self.table.keep(&set.name, held, now);
        self.latest = now;
        Reply::Pinned(PinnedAs::Kept)
    }

    /// A pin goes to its server, and is used.
    fn set_moved(&mut self, set: &SetPin, held: Held) -> Result<Reply, AllocError>
        requires reached { IsReached self.old.shown }
        requires place { HasPlace self.old.shown set.now }
        requires stands { Stands set.now.name held self.old.shown.pins }
        requires away { is_at set.now.server held.place ≡ false }
        requires uses { self.old.uses < 2 ^ 63 }
        ensures acts { IfOk result (λ reply. ActsOn self.old.shown (Event.Set set.now) reply self.new.shown) }
        ensures err { OnErr result (self.new ≡ self.old) }
        ensures connections { self.new.shown.connections ≡ self.old.shown.connections }
        ensures uses { IfOk result (λ reply. self.new.uses ≡ self.old.uses + (if is_use reply then 1 else 0)) }
    {
        let now = self.moment_of(set.moment);
        let from = held.place;
        self.table.move_to(&set.name, held, set.server, now)?;
        send(&mut self.book, from, set.server);
        self.latest = now;
        Ok(Reply::Pinned(PinnedAs::Moved))
    }

    /// A pin of a new name, where the table may take one.
    fn set_new(&mut self, set: &SetPin) -> Result<Reply, AllocError>
        requires reached { IsReached self.old.shown }
        requires place { HasPlace self.old.shown set.now }
        requires unknown { IsNew set.now.name self.old.shown.pins }
        requires uses { self.old.uses < 2 ^ 63 }
        ensures acts { IfOk result (λ reply. ActsOn self.old.shown (Event.Set set.now) reply self.new.shown) }
        ensures err { OnErr result (self.new ≡ self.old) }
        ensures connections { self.new.shown.connections ≡ self.old.shown.connections }
        ensures uses { IfOk result (λ reply. self.new.uses ≡ self.old.uses + (if is_use reply then 1 else 0)) }
    {
        if self.is_full() && self.keeps_pins() {
            return Ok(Reply::Refused(Refusal::TableFull));
        }
        self.set_made(set)
    }

    /// A pin is made at its server. A full table loses its oldest pin.
    fn set_made(&mut self, set: &SetPin) -> Result<Reply, AllocError>
        requires reached { IsReached self.old.shown }
        requires place { HasPlace self.old.shown set.now }
        requires unknown { IsNew set.now.name self.old.shown.pins }
        requires room { ForEach self.old.shown (λ state. (is_full state && keeps_pins state) ≡ false) }
        requires uses { self.old.uses < 2 ^ 63 }
        ensures acts { IfOk result (λ reply. ActsOn self.old.shown (Event.Set set.now) reply self.new.shown) }
        ensures err { OnErr result (self.new ≡ self.old) }
        ensures connections { self.new.shown.connections ≡ self.old.shown.connections }
        ensures uses { IfOk result (λ reply. self.new.uses ≡ self.old.uses + (if is_use reply then 1 else 0)) }
    {
        let lost = self.lost_place();
        let from = lost;
        let now = self.moment_of(set.moment);
        let copy = copied(&set.name)?;
        if self.table.insert(copy, set.server, set.cost, now).is_err() {
            return Err(AllocError);
        }
        send(&mut self.book, from, set.server);
        self.latest = now;
        Ok(Reply::Pinned(PinnedAs::Made))
    }

    /// The pin of this name goes, if there is one. The version isn't counted yet.
    pub(crate) fn clear(&mut self, name: &PinId) -> Reply
        requires reached { IsReached self.old.shown }
        requires uses { self.old.uses ≤ 2 ^ 63 }
        ensures acts { ActsOn self.old.shown (Event.Clear name.now) result self.new.shown }
        ensures connections { self.new.shown.connections ≡ self.old.shown.connections }
        ensures uses { self.new.uses ≡ self.old.uses }
    {
        let Some(held) = self.table.take_out(name) else {
            return Reply::NoPin;
        };
        leave(&mut self.book, held.place);
        Reply::Cleared
    }
}

/// Whether the place is the server.
fn is_at(server: ServerId, place: Place) -> bool
    ensures { result ≡ is_at server place }
{
    match place {
        Some(at) => at == server,
        None => false,
    }
}

ghost use Rattle.std.specs.Prelude.{◌≡◌, ℕ, true, false, ◌^◌, ◌&&◌, ◌<◌, ◌+◌, max, Option, Some, None, IfOk, IfSome, IfNone, OnErr, if◌then◌else◌};
ghost use Rattle.pin_set.specs.declared.pin_key.PinKey.{PinKey};
ghost use Rattle.lb_desk_model.specs.Seen.{Steps};
ghost use Rattle.lb_desk_model.specs.Serves.{IsLoose, IsNew, is_full, keeps_pins};
ghost use Rattle.lb_desk_model.specs.Worn.{is_use};
ghost use Rattle.pin_table.specs.Pins.{Stands};
ghost use Rattle.lb_desk_pick.specs.Sights.{lost_place};
ghost use Rattle.lb_desk_core.specs.Acting.{ActsOn, ForEach};
ghost use Rattle.lb_desk_core.specs.Core.{IsReached};
ghost use Rattle.lb_desk_core.specs.Requests.{AreKnown, IsNamed, honours, keyed, moves_pin, with_key};

use crate::backend_core::Core;
use crate::events::count;
use crate::loads::shift;
use crate::parts::Parts;
use lb_desk_model::{Event, PinnedAs, Refusal, Reply, Request, ServedAs};
use lb_desk_pick::{Pick, are_below, loose_pick, pin_pick, set_of};
use lb_types::{Moment, Place, ServerId, ServerSet};
use pin_set::{PinId, honoured};
use pin_table::Held;
use std::alloc::AllocError;
use std::hash::BuildHasher;

impl<S: BuildHasher> Core<S> {
    /// A server for a request. The request is the caller's again as it was.
    ///
    /// It costs at most two look-ups of the pin by hash, and one pick, which looks at each server and each rule at most three
    /// times. A request without a pin allocates nothing, nor does a pin that stays. A pin that moves allocates for a count at
    /// most, and the key is copied only when a pin is made. The only error is out of memory, and then nothing has changed.
    pub fn serve(&mut self, request: &mut Request) -> Result<Reply, AllocError>
        requires version { self.old.shown.version < 2 ^ 63 }
        requires uses { self.old.uses < 2 ^ 63 }
        ensures steps { IfOk result (λ reply. Steps self.old.shown (Event.Serve request.old) reply self.new.shown) }
        ensures err { OnErr result (self.new ≡ self.old) }
        ensures same { request.new ≡ request.old }
        ensures connections { self.new.shown.connections ≡ self.old.shown.connections }
        ensures uses { IfOk result (λ reply. self.new.uses ≡ self.old.uses + (if is_use reply then 1 else 0)) }
    {
        let reply = self.parts.serve(request)?;
        count(&mut self.parts.table, moves_pin(&reply));
        Ok(reply)
    }
}

/// Whether the reply says that a pin is at another place than before, wasn't there, or is gone.
pub(crate) fn moves_pin(reply: &Reply) -> bool
    ensures { result ≡ moves_pin reply.now }
{
    matches!(
        reply,
        Reply::Served(_, ServedAs::Moved | ServedAs::Made)
            | Reply::Pinned(PinnedAs::Moved | PinnedAs::Made)
            | Reply::Cleared
    )
}

impl<S: BuildHasher> Parts<S> {
    /// A server for a request.
    pub(crate) fn serve(&mut self, request: &mut Request) -> Result<Reply, AllocError>
        requires reached { IsReached self.old.shown }
        requires uses { self.old.uses < 2 ^ 63 }
        ensures acts { IfOk result (λ reply. ActsOn self.old.shown (Event.Serve request.old) reply self.new.shown) }
        ensures err { OnErr result (self.new ≡ self.old) }
        ensures same { request.new ≡ request.old }
        ensures connections { self.new.shown.connections ≡ self.old.shown.connections }
        ensures uses { IfOk result (λ reply. self.new.uses ≡ self.old.uses + (if is_use reply then 1 else 0)) }
    {
        if !are_below(request.rules.servers(), self.names.len()) {
            return Ok(Reply::Refused(Refusal::NoSuchServer));
        }
        if self.settings.is_none() {
            return Ok(self.serve_loose(request));
        }
        let Some(key) = request.key.take() else {
            return Ok(self.serve_loose(request));
        };
        let want = set_of(request.rules.servers());
        let name = PinId { key, want };
        let reply = self.serve_named(&name, request);
        request.key = Some(name.key);
        reply
    }

    /// A server for a request of this name, whose key the name has.
    fn serve_named(&mut self, name: &PinId, request: &Request) -> Result<Reply, AllocError>
        requires reached { IsReached self.old.shown }
        requires named { IsNamed self.old.shown request.now name.now }
        requires uses { self.old.uses < 2 ^ 63 }
        ensures acts { IfOk result (λ reply. ActsOn self.old.shown (Event.Serve (keyed request.now name.now)) reply self.new.shown) }
        ensures err { OnErr result (self.new ≡ self.old) }
        ensures connections { self.new.shown.connections ≡ self.old.shown.connections }
        ensures uses { IfOk result (λ reply. self.new.uses ≡ self.old.uses + (if is_use reply then 1 else 0)) }
    {
        if let Some(held) = self.table.find(name) {
            return self.serve_by_pin(name, held, request);
        }
        if self.is_full() && self.keeps_pins() {
            return Ok(self.serve_loose(request));
        }
        self.serve_by_new_pin(name, request)
    }

    /// A server for a request that has no pin and gets none. Its key is not looked at.
    fn serve_loose(&mut self, request: &Request) -> Reply
        requires { AreKnown self.old.shown request.now.rules }
        ensures acts { (key : Option PinKey)
            → ForEach self.old.shown (λ state. IsLoose state (with_key request.now key))
            → ActsOn self.old.shown (Event.Serve (with_key request.now key)) result self.new.shown }
        ensures connections { self.new.shown.connections ≡ self.old.shown.connections }
        ensures uses { self.new.uses ≡ self.old.uses }
        ensures no_use { is_use result ≡ false }
    {
        let rules = request.rules.servers();
        let pick = loose_pick(self.balance, &self.farm, &self.book, rules, self.cursor);
        let Some(pick) = pick else {
            return Reply::Refused(Refusal::NoServer);
        };
        let Pick { server, cursor } = pick;
        self.latest = self.moment_of(request.moment);
        self.cursor = cursor;
        Reply::Served(server, ServedAs::Loose)
    }

    /// A server for a request whose pin is in the table.
    fn serve_by_pin(
        &mut self,
        name: &PinId,
        held: Held,
        request: &Request,
    ) -> Result<Reply, AllocError>
        requires reached { IsReached self.old.shown }
        requires named { IsNamed self.old.shown request.now name.now }
        requires stands { Stands name.now held self.old.shown.pins }
        requires uses { self.old.uses < 2 ^ 63 }
        ensures acts { IfOk result (λ reply. ActsOn self.old.shown (Event.Serve (keyed request.now name.now)) reply self.new.shown) }
        ensures err { OnErr result (self.new ≡ self.old) }
        ensures connections { self.new.shown.connections ≡ self.old.shown.connections }
        ensures uses { IfOk result (λ reply. self.new.uses ≡ self.old.uses + (if is_use reply then 1 else 0)) }
    {
        match self.kept_place(&held, name.want) {
            Some(server) => Ok(self.keep_pin(name, held, server, request)),
            None => self.move_pin(name, held, request),
        }
    }

    /// The place of the pin, where it is honoured.
    fn kept_place(&self, held: &Held, want: ServerSet) -> Option<ServerId>
        ensures at { IfSome result (λ server. held.now.place ≡ Some server) }
        ensures kept { IfSome result (λ server. honours self.now.shown want server ≡ true) }
        ensures not_kept { IfNone result ((server : ℕ) → held.now.place ≡ Some server → honours self.now.shown want server ≡ false) }
    {
        let server = held.place?;
        let serving = self.farm.serving(server);
        if honoured(Some(server), want, self.farm.usable(), serving) {
            Some(server)
        } else {
            None
        }
    }

    /// The server of the pin, which was used last.
    fn keep_pin(&mut self, name: &PinId, held: Held, server: ServerId, request: &Request) -> Reply
        requires named { IsNamed self.old.shown request.now name.now }
        requires stands { Stands name.now held self.old.shown.pins }
        requires at { held.place ≡ Some server }
        requires kept { honours self.old.shown name.now.want server ≡ true }
        requires uses { self.old.uses < 2 ^ 63 }
        ensures acts { ActsOn self.old.shown (Event.Serve (keyed request.now name.now)) result self.new.shown }
        ensures connections { self.new.shown.connections ≡ self.old.shown.connections }
        ensures uses { self.new.uses ≡ self.old.uses + 1 }
        ensures is_use { is_use result ≡ true }
    {
        let now = self.moment_of(request.moment);
        self.table.keep(name, held, now);
        self.latest = now;
        Reply::Served(server, ServedAs::Kept)
    }

    /// Another server for the pin, which was used last.
    fn move_pin(&mut self, name: &PinId, held: Held, request: &Request) -> Result<Reply, AllocError>
        requires reached { IsReached self.old.shown }
        requires named { IsNamed self.old.shown request.now name.now }
        requires stands { Stands name.now held self.old.shown.pins }
        requires left { (server : ℕ) → held.place ≡ Some server → honours self.old.shown name.now.want server ≡ false }
        requires uses { self.old.uses < 2 ^ 63 }
        ensures acts { IfOk result (λ reply. ActsOn self.old.shown (Event.Serve (keyed request.now name.now)) reply self.new.shown) }
        ensures err { OnErr result (self.new ≡ self.old) }
        ensures connections { self.new.shown.connections ≡ self.old.shown.connections }
        ensures uses { IfOk result (λ reply. self.new.uses ≡ self.old.uses + (if is_use reply then 1 else 0)) }
    {
        let rules = request.rules.servers();
        let pick = pin_pick(
            self.balance,
            &self.farm,
            &self.book,
            rules,
            self.cursor,
            None,
        );
        let Some(pick) = pick else {
            return Ok(Reply::Refused(Refusal::NoServer));
        };
        let Pick { server, cursor } = pick;
        let now = self.moment_of(request.moment);
        let from = held.place;
        self.table.move_to(name, held, server, now)?;
        shift(&mut self.book, &self.farm, from, server);
        self.latest = now;
        self.cursor = cursor;
        Ok(Reply::Served(server, ServedAs::Moved))
    }

    /// A server for a request whose pin is made. A full table loses its oldest pin, which doesn't count in the pick.
    fn serve_by_new_pin(&mut self, name: &PinId, request: &Request) -> Result<Reply, AllocError>
        requires reached { IsReached self.old.shown }
        requires named { IsNamed self.old.shown request.now name.now }
        requires unknown { IsNew name.now self.old.shown.pins }
        requires room { ForEach self.old.shown (λ state. (is_full state && keeps_pins state) ≡ false) }
        requires uses { self.old.uses < 2 ^ 63 }
        ensures acts { IfOk result (λ reply. ActsOn self.old.shown (Event.Serve (keyed request.now name.now)) reply self.new.shown) }
        ensures err { OnErr result (self.new ≡ self.old) }
        ensures connections { self.new.shown.connections ≡ self.old.shown.connections }
        ensures uses { IfOk result (λ reply. self.new.uses ≡ self.old.uses + (if is_use reply then 1 else 0)) }
    {
        let lost = self.lost_place();
        let from = lost;
        let rules = request.rules.servers();
        let pick = pin_pick(
            self.balance,
            &self.farm,
            &self.book,
            rules,
            self.cursor,
            lost,
        );
        let Some(pick) = pick else {
            return Ok(Reply::Refused(Refusal::NoServer));
        };
        let Pick { server, cursor } = pick;
        let now = self.moment_of(request.moment);
        let copy = copied(name)?;
        if self.table.insert(copy, server, request.cost, now).is_err() {
            return Err(AllocError);
        }
        shift(&mut self.book, &self.farm, from, server);
        self.latest = now;
        self.cursor = cursor;
        Ok(Reply::Served(server, ServedAs::Made))
    }

    /// The place of the pin that leaves the table where one is made: in a full table the oldest one's.
    pub(crate) fn lost_place(&self) -> Place
        ensures { ForEach self.now.shown (λ state. lost_place state ≡ result) }
    {
        if !self.is_full() {
            return None;
        }
        match self.table.oldest() {
            Some((_, held)) => held.place,
            None => None,
        }
    }

    /// Whether the table has as many pins as it may; a table that isn't there is full.
    pub(crate) fn is_full(&self) -> bool
        ensures { ForEach self.now.shown (λ state. result ≡ is_full state) }
    {
        self.settings.is_none() || self.table.is_full()
    }

    /// Whether a full table keeps its pins.
    pub(crate) fn keeps_pins(&self) -> bool
        ensures { ForEach self.now.shown (λ state. result ≡ keeps_pins state) }
    {
        match self.settings {
            Some(settings) => settings.no_purge,
            None => true,
        }
    }

    /// The moment, or the latest one where that is later.
    pub(crate) fn moment_of(&self, now: Moment) -> Moment
        ensures { result ≡ max self.now.shown.latest now }
    {
        Moment::from_millis(self.latest.as_millis().max(now.as_millis()))
    }
}

pub(crate) fn copied(name: &PinId) -> Result<PinId, AllocError>
    ensures { IfOk result (λ copy. copy ≡ name.now) }
{
    name.clone()
}

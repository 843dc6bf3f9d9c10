ghost use Rattle.std.specs.Prelude.{◌≡◌, ℕ, ◌+◌, ◌<◌, ◌≤◌, ◌^◌, [], not, nat_le, filter, count_by, length, All, IfSome, IfNone, if◌then◌else◌};
ghost use Rattle.std.specs.Option.{option_and_then};
ghost use Rattle.lb_types.specs.declared.limits.TheConstants.{MAX_SERVERS};
ghost use Rattle.capacity_book.specs.Book.{pins_at};
ghost use Rattle.pin_set.specs.Assignments.{is_at};
ghost use Rattle.pin_table.specs.Tables.{with_pins};
ghost use Rattle.lb_desk_model.specs.Seen.{Steps};
ghost use Rattle.lb_desk_core.specs.Acting.{ActsOn};
ghost use Rattle.lb_desk_core.specs.Expiring.{is_older, AreCounted, ArePlaced, AreRising, FirstStays, IsGone};

use crate::backend_core::Core;
use crate::events::count;
use crate::parts::Parts;
use capacity_book::Book;
use lb_desk_model::{Event, Reply};
use lb_types::{MAX_SERVERS, Moment, Place, TableSettings};
use pin_table::Table;
use std::hash::BuildHasher;

/// Fewer pins are let go one by one, since what it costs to empty a table grows with the most pins that it ever had.
const MANY: usize = 1024;

impl<S: BuildHasher> Core<S> {
    /// Lets every pin go that wasn't used for as long as the table's `expire` says. Without a table, or without `expire`, none
    /// goes. A moment before that of the latest request served counts as the latest.
    ///
    /// It costs one look at the pin that wasn't used for longest, a few machine instructions, and taking out each pin that goes. If
    /// all go and are many, they go together in one walk that hashes nothing. It allocates nothing.
    pub fn expire(&mut self, now: Moment) -> Reply
        requires version { self.old.shown.version < 2 ^ 63 }
        requires uses { self.old.uses ≤ 2 ^ 63 }
        ensures steps { Steps self.old.shown (Event.Expire now) result self.new.shown }
        ensures connections { self.new.shown.connections ≡ self.old.shown.connections }
        ensures uses { self.new.uses ≡ self.old.uses }
    {
        let gone = self.parts.expire(now);
        count(&mut self.parts.table, gone > 0);
        Reply::Expired(gone)
    }
}

impl<S: BuildHasher> Parts<S> {
    /// Lets the pins go that are due, and gives how many they were. The version isn't counted yet.
    fn expire(&mut self, now: Moment) -> u64
        requires uses { self.old.uses ≤ 2 ^ 63 }
        requires rising { AreRising self.old.shown.pins }
        requires placed { ArePlaced (length self.old.shown.names) self.old.shown.pins }
        requires latest { All (λ p. p.last_use ≤ self.old.shown.latest) self.old.shown.pins }
        requires few { length self.old.shown.names ≤ MAX_SERVERS }
        ensures acts { ActsOn self.old.shown (Event.Expire now) (Reply.Expired result) self.new.shown }
        ensures version { self.new.shown.version ≡ self.old.shown.version }
        ensures connections { self.new.shown.connections ≡ self.old.shown.connections }
        ensures uses { self.new.uses ≡ self.old.uses }
    {
        let Some(limit) = limit_of(self.settings) else {
            return 0;
        };
        let now = Moment::from_millis(self.latest.as_millis().max(now.as_millis()));
        // No pin was used later than the latest request was served, so then all are due.
        if self.table.len() >= MANY && is_older(self.latest, limit, now) {
            return let_all_go(&mut self.table, &mut self.book, self.names.len());
        }
        let_go(&mut self.table, &mut self.book, limit, now)
    }
}

/// For how long the table lets a pin stay without a use, in milliseconds, if it lets any go.
fn limit_of(settings: Option<TableSettings>) -> Option<u32>
    ensures { result ≡ option_and_then (λ table. table.expire) settings }
{
    settings?.expire
}

/// Lets all pins go, and gives how many they were.
fn let_all_go<S: BuildHasher>(table: &mut Table<S>, book: &mut Book, servers: usize) -> u64
    requires many { length book.old.pins ≡ servers }
    requires few { servers ≤ MAX_SERVERS }
    ensures gone { result ≡ length table.old.pins }
    ensures left { table.new ≡ with_pins table.old [] }
    ensures counted { (server : ℕ) → pins_at book.new server ≡ 0 }
    ensures many { length book.new.pins ≡ length book.old.pins }
    ensures connections { book.new.connections ≡ book.old.connections }
{
    let gone = table.len();
    table.clear();
    let none = [0; MAX_SERVERS];
    book.reload(&none[..servers]);
    gone as u64
}

/// Lets the pins go that weren't used for so long, and gives how many they were. They are the table's first ones.
fn let_go<S: BuildHasher>(table: &mut Table<S>, book: &mut Book, limit: u32, now: Moment) -> u64
    requires uses { table.old.uses ≤ 2 ^ 63 }
    requires rising { AreRising table.old.pins }
    requires counted { AreCounted book.old table.old.pins }
    ensures gone { result ≡ count_by (is_older limit now) table.old.pins }
    ensures left { table.new
        ≡ with_pins table.old (filter (λ p. not (is_older limit now p)) table.old.pins) }
    ensures counted { AreCounted book.new table.new.pins }
    ensures many { length book.new.pins ≡ length book.old.pins }
    ensures connections { book.new.connections ≡ book.old.connections }
{
    let before = table.len();
    while let Some(place) = pop_older(table, limit, now) {
        leave(book, place);
    }
    (before - table.len()) as u64
}

/// Takes out the pin that wasn't used for longest, where it wasn't for so long, and gives its place.
fn pop_older<S: BuildHasher>(table: &mut Table<S>, limit: u32, now: Moment) -> Option<Place>
    requires { table.old.uses ≤ 2 ^ 63 }
    ensures gone { IfSome result (λ place. IsGone limit now place table.old.pins table.new.pins) }
    ensures none { IfNone result (FirstStays limit now table.old.pins) }
    ensures kept { IfNone result (table.new.pins ≡ table.old.pins) }
    ensures rest { table.new ≡ with_pins table.old table.new.pins }
{
    let Some((_, held)) = table.oldest() else {
        return None;
    };
    if !is_older(held.last_use, limit, now) {
        return None;
    }
    let _ = table.pop_oldest();
    Some(held.place)
}

/// Whether what was last used then wasn't used for so long.
fn is_older(last_use: Moment, limit: u32, now: Moment) -> bool
    ensures { result ≡ nat_le (last_use + limit) now }
{
    match now.as_millis().checked_sub(last_use.as_millis()) {
        Some(idle) => idle >= u64::from(limit),
        None => false,
    }
}

/// Counts one pin fewer at the place that a pin leaves.
fn leave(book: &mut Book, place: Place)
    requires held { IfSome place (λ server. 0 < pins_at book.old server) }
    ensures pins { (server : ℕ) → pins_at book.new server + (if is_at server place then 1 else 0) ≡ pins_at book.old server }
    ensures many { length book.new.pins ≡ length book.old.pins }
    ensures connections { book.new.connections ≡ book.old.connections }
{
    if let Some(server) = place {
        book.unplace(server);
    }
}

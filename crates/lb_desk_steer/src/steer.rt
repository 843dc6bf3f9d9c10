ghost use Rattle.std.specs.Prelude.{◌≡◌, ◌++◌, List, IfOk};
ghost use Rattle.lb_desk_model.specs.declared.entry.Entry.{Entry};
ghost use Rattle.lb_desk_model.specs.declared.event.Event.TheVariants.{Set, Clear};
ghost use Rattle.lb_desk_ports.specs.Calls.{after_call};
ghost use Rattle.lb_desk_steer.specs.Steering.{AddsAt, KeepsSights, SeesJournal, SeesPins, commanding_entries};

use crate::JournalCopy;
use lb_desk_model::{Reply, SetPin};
use lb_desk_ports::{Mover, Refused};
use lb_types::Moment;
use pin_set::{PinId, TablePin};
use server_state::Change;
use std::alloc::{AllocError, Global};

/// A backend, as a caller that carries out an operator's commands sees it. A call that is refused when out of memory or for wear
/// makes no event, except for the first of the two of `set_pin` and of `clear_pin`.
pub trait Steer<R>: Mover<R> {
    /// The history of the backend at each moment of which a copy was made, or at which a call was refused, in the order of these calls.
    ghost sights: { Self → List (List Entry) };

    /// Makes the change to a server, and answers `Reply::Done`. Or it changes nothing and answers `Reply::Refused`: 10, there is no
    /// such server; 12, its health is set and it isn't checked; 11, the number is out of range.
    fn command(&mut self, rt: &R, change: Change) -> Result<Reply, Refused>
        ensures entries { Self.entries self.new ≡ Self.entries self.old ++ commanding_entries change result }
        ensures refusals { Self.refusals self.new ≡ after_call result (Self.refusals self.old) }
        ensures planned_now { Self.planned_now self.new ≡ Self.planned_now self.old }
        ensures backend { Self.backend self.new ≡ Self.backend self.old }
        ensures sights { KeepsSights (Self.sights self.old) (Self.sights self.new) };

    /// Has a pin stand at a server: first pins go that weren't used for long at the pin's moment, and then the pin is set. It answers
    /// `Reply::Pinned`; `Reply::NoTable` where the backend has no table; or `Reply::Refused`: 10, there is no such server; 60, the table
    /// is full and keeps its pins.
    fn set_pin(&mut self, rt: &R, pin: SetPin) -> Result<Reply, Refused>
        ensures entries { AddsAt pin.moment (Set pin) (Self.entries self.old) (Self.entries self.new) result }
        ensures refusals { Self.refusals self.new ≡ after_call result (Self.refusals self.old) }
        ensures planned_now { Self.planned_now self.new ≡ Self.planned_now self.old }
        ensures backend { Self.backend self.new ≡ Self.backend self.old }
        ensures sights { KeepsSights (Self.sights self.old) (Self.sights self.new) };

    /// Has the pin of this name go: first pins go that weren't used for long at the moment, and then this one. It answers
    /// `Reply::Cleared`, or `Reply::NoPin` where there is none of that name.
    fn clear_pin(&mut self, rt: &R, name: PinId, moment: Moment) -> Result<Reply, Refused>
        ensures entries { AddsAt moment (Clear name) (Self.entries self.old) (Self.entries self.new) result }
        ensures refusals { Self.refusals self.new ≡ after_call result (Self.refusals self.old) }
        ensures planned_now { Self.planned_now self.new ≡ Self.planned_now self.old }
        ensures backend { Self.backend self.new ≡ Self.backend self.old }
        ensures sights { KeepsSights (Self.sights self.old) (Self.sights self.new) };

    /// Copies of the table's pins as they are now, after all events of this `Steer`, in order of last use, the one that wasn't used for
    /// longest first; none if the backend has no table. It is no event, and no use of any pin.
    ///
    /// It costs one pass through the pins while no event is taken, one walk over them after that, and a copy of each key in either.
    /// Refused only when out of memory.
    fn rows(&mut self, rt: &R, alloc: Global) -> Result<Vec<TablePin>, AllocError>
        ensures pins { IfOk result
            (λ pins. SeesPins (Self.backend self.old) (Self.entries self.old) (Self.sights self.old) (Self.sights self.new) pins.items) }
        ensures entries { Self.entries self.new ≡ Self.entries self.old }
        ensures refusals { Self.refusals self.new ≡ Self.refusals self.old }
        ensures planned_now { Self.planned_now self.new ≡ Self.planned_now self.old }
        ensures backend { Self.backend self.new ≡ Self.backend self.old }
        ensures sights { KeepsSights (Self.sights self.old) (Self.sights self.new) };

    /// A copy of all that the backend's journal keeps now, after all events of this `Steer`. It is no event.
    ///
    /// It costs one walk over the entries while no event is taken, and a copy of each key and of each list of rules. Refused only
    /// when out of memory.
    fn journal(&mut self, rt: &R, alloc: Global) -> Result<JournalCopy, AllocError>
        ensures journal { IfOk result
            (λ copy. SeesJournal (Self.backend self.old) (Self.entries self.old) (Self.sights self.old) (Self.sights self.new) copy.first copy.entries.items) }
        ensures entries { Self.entries self.new ≡ Self.entries self.old }
        ensures refusals { Self.refusals self.new ≡ Self.refusals self.old }
        ensures planned_now { Self.planned_now self.new ≡ Self.planned_now self.old }
        ensures backend { Self.backend self.new ≡ Self.backend self.old }
        ensures sights { KeepsSights (Self.sights self.old) (Self.sights self.new) };
}

ghost use Rattle.std.specs.Prelude.{◌≡◌, ◌+◌, ◌<◌, ◌^◌, sum};
ghost use Rattle.lb_desk_model.specs.Seen.{Steps};
ghost use Rattle.lb_desk_model.specs.Worn.{open_connections};
ghost use Rattle.lb_desk_servers.specs.Shown.{closed, counted, opened};

use crate::backend_core::Core;
use lb_desk_model::{Event, Reply};
use lb_desk_servers::{Outcome, check, close_connection, command, open_connection};
use lb_types::ServerId;
use pin_table::Table;
use server_state::Change;
use std::hash::BuildHasher;

impl<S: BuildHasher> Core<S> {
    /// Takes the result of a check, unless it is refused or ignored.
    ///
    /// It costs one walk over the servers, and allocates nothing.
    pub fn check(&mut self, server: ServerId, ok: bool) -> Reply
        requires { self.old.shown.version < 2 ^ 63 }
        ensures steps { Steps self.old.shown (Event.Check server ok) result self.new.shown }
        ensures connections { self.new.shown.connections ≡ self.old.shown.connections }
        ensures uses { self.new.uses ≡ self.old.uses }
    {
        let Outcome {
            reply,
            changes_view,
        } = check(&mut self.parts.farm, server, ok);
        count(&mut self.parts.table, changes_view);
        reply
    }

    /// Makes the operator's change, unless it is refused.
    ///
    /// It costs one walk over the servers, and allocates nothing.
    pub fn command(&mut self, change: Change) -> Reply
        requires { self.old.shown.version < 2 ^ 63 }
        ensures steps { Steps self.old.shown (Event.Command change) result self.new.shown }
        ensures connections { self.new.shown.connections ≡ self.old.shown.connections }
        ensures uses { self.new.uses ≡ self.old.uses }
    {
        let Outcome {
            reply,
            changes_view,
        } = command(&mut self.parts.farm, change);
        count(&mut self.parts.table, changes_view);
        reply
    }

    /// One connection more at the server, unless it doesn't serve or is full.
    ///
    /// It costs a few machine instructions, and allocates nothing.
    pub fn open_connection(&mut self, server: ServerId) -> Reply
        requires { open_connections self.old.shown + 1 < 2 ^ 64 }
        ensures steps { Steps self.old.shown (Event.Open server) result self.new.shown }
        ensures connections { open_connections self.new.shown
            ≡ open_connections self.old.shown + opened result }
        ensures uses { self.new.uses ≡ self.old.uses }
    {
        open_connection(&self.parts.farm, &mut self.parts.book, server)
    }

    /// One connection fewer at the server, if one is open there.
    ///
    /// It costs a few machine instructions, and allocates nothing.
    pub fn close_connection(&mut self, server: ServerId) -> Reply
        ensures steps { Steps self.old.shown (Event.Close server) result self.new.shown }
        ensures connections { open_connections self.new.shown + closed result
            ≡ open_connections self.old.shown }
        ensures uses { self.new.uses ≡ self.old.uses }
    {
        close_connection(&mut self.parts.book, server)
    }
}

/// Counts one change of the view more, where there was one.
pub(crate) fn count<S: BuildHasher>(table: &mut Table<S>, changes_view: bool)
    requires { table.old.version < 2 ^ 63 }
    ensures { table.new ≡ record table.old { version = counted table.old.version changes_view } }
{
    if changes_view {
        table.bump();
    }
}

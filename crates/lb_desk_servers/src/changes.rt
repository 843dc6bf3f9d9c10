ghost use Rattle.std.specs.Prelude.{◌≡◌, length};
ghost use Rattle.lb_desk_servers.specs.Shown.{StepsAtFarm};

use crate::outcome::Outcome;
use crate::replies::{reply_of_change, reply_of_check};
use lb_desk_model::Event;
use lb_types::ServerId;
use server_state::{Change, Farm};

/// Takes the result of a check, unless it is refused or ignored.
///
/// It costs one walk over the servers.
pub fn check(farm: &mut Farm, server: ServerId, ok: bool) -> Outcome
    ensures steps { StepsAtFarm farm.old (Event.Check server ok) result farm.new }
    ensures many { length farm.new.servers ≡ length farm.old.servers }
{
    let usable = farm.usable();
    let reply = reply_of_check(farm.check(server, ok));
    let changes_view = farm.usable() != usable;
    Outcome {
        reply,
        changes_view,
    }
}

/// Makes the operator's change, unless it is refused.
///
/// It costs one walk over the servers.
pub fn command(farm: &mut Farm, change: Change) -> Outcome
    ensures steps { StepsAtFarm farm.old (Event.Command change) result farm.new }
    ensures many { length farm.new.servers ≡ length farm.old.servers }
{
    let server = change.server;
    let usable = farm.usable();
    let capacity = farm.capacity(server);
    let reply = reply_of_change(farm.apply(change));
    let same = (farm.capacity(server) == capacity) & (farm.usable() == usable);
    Outcome {
        reply,
        changes_view: !same,
    }
}

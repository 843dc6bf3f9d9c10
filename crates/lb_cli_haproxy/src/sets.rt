ghost use Rattle.std.specs.Prelude.{◌≡◌, ℕ, ◌&&◌, ◌||◌, ◌==◌};
ghost use Rattle.lb_types.specs.Servers.{has};

use lb_types::{ServerId, ServerSet};

/// The set, with the server if it is on.
pub(crate) fn with_if(set: ServerSet, server: ServerId, is_on: bool) -> ServerSet
    ensures { (s : ℕ) → has result s ≡ ((is_on && s == server) || has set s) }
{
    if is_on { set.with(server) } else { set }
}

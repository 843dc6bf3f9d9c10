ghost use Rattle.std.specs.Prelude.{◌≡◌};
ghost use Rattle.pin_set.specs.Pins.{permitted, honoured};

use lb_types::{Place, ServerSet};

/// The servers that a pin may be moved to: the usable ones that it wants, or all usable ones where it wants none of them.
pub fn permitted(want: ServerSet, usable: ServerSet) -> ServerSet
    ensures { result ≡ permitted want usable }
{
    let wanted = want.meet(usable);
    if wanted.is_empty() { usable } else { wanted }
}

/// Whether a pin is served where it is: its place serves, and it wants that server, wants none, or wants no usable one.
///
/// `serving` says that the place is a server that serves. A pin at no server is never honoured.
pub fn honoured(place: Place, want: ServerSet, usable: ServerSet, serving: bool) -> bool
    ensures { result ≡ honoured place want usable serving }
{
    match place {
        Some(server) => {
            serving && (want.is_empty() || want.has(server) || want.meet(usable).is_empty())
        }
        None => false,
    }
}

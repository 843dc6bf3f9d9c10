ghost use Rattle.std.specs.Prelude.{◌≡◌, ◌<◌, ◌^◌};
ghost use Rattle.lb_desk_servers.specs.Shown.{counted};

use lb_desk_model::Reply;

/// What an event is answered, and what it is for planners.
#[derive(Debug, Drop)]
pub struct Outcome {
    pub reply: Reply,
    /// Whether planners see another view after it: the version then grows.
    pub changes_view: bool,
}

/// The version after an event, which is one more if the event changes the view.
pub fn counted(version: u64, changes_view: bool) -> u64
    requires { version < 2 ^ 63 }
    ensures { result ≡ counted version changes_view }
{
    version + u64::from(changes_view)
}

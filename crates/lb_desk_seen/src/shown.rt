ghost use Rattle.lb_desk_seen.specs.Changes.{SettingsAreSeen, ResultsAreSeen, ServersAreSeen, ConnectionsAreSeen, ViewsAreSeen, ActsAreCounted};
ghost use Rattle.lb_desk_seen.specs.Replies.{RepliesTellViews, RepliesTellVersions};
ghost use Rattle.lb_desk_seen.specs.Reached.{OpeningIsShown, StepsAreShown, ShownViewsAreLawful};

/// Seeing a server after a change, a check's result or a connection is changing what is seen of it. A state's view, and whether it
/// changes, follow from what is seen.
pub fn changes_are_seen()
    ensures settings { SettingsAreSeen }
    ensures results { ResultsAreSeen }
    ensures servers { ServersAreSeen }
    ensures connections { ConnectionsAreSeen }
    ensures views { ViewsAreSeen }
    ensures counted { ActsAreCounted }
{}

/// The reply to an event after a history says whether the event changed the view, and so the version. It did exactly where a pin was
/// moved, made or cleared, pins went, a plan moved some, or other servers are usable or another capacity is set.
pub fn replies_tell_changes()
    ensures views { RepliesTellViews }
    ensures versions { RepliesTellVersions }
{}

/// A desk whose events are steps of each state that it shows stands at the end of a log: that of these events, with their replies.
/// Its view is lawful.
pub fn desks_go_on()
    ensures opening { OpeningIsShown }
    ensures steps { StepsAreShown }
    ensures lawful { ShownViewsAreLawful }
{}

ghost use Rattle.lb_desk_seen.specs.Logs.{HeadlineOfALog};
ghost use Rattle.lb_desk_seen.specs.Accepted.{OneViewAVersion, AcceptedNow, AcceptedBefore};

/// Each install of any log since a backend's opening is stale exactly where the view has changed, and then changes nothing. Else it is
/// refused exactly as the check refuses it. Else each pin is kept, and the new places are lawful and best.
pub fn headline_of_logs()
    ensures { HeadlineOfALog }
{}

/// Two points of a history with one version have one view. So a plan that the check accepts for the view that stands is
/// answered Installed, and one that it accepted for an earlier view is answered Installed or Stale.
pub fn accepted_plans_are_installed()
    ensures views { OneViewAVersion }
    ensures now { AcceptedNow }
    ensures before { AcceptedBefore }
{}

ghost use Rattle.flow_planner_law.specs.Accepted.{PlansAreAccepted};

/// A plan that says where the pins of a repaired state stand, with its prices, is accepted.
pub fn plans_are_accepted()
    ensures { PlansAreAccepted }
{}

ghost use Rattle.cert_check_law.specs.Laws.{BoundsHold, ViewBoundsHold, CostsSplit, MovesCostLess, BestAtBound};
ghost use Rattle.cert_check_law.specs.Laws.{SumsOverGroups, SumsOverRows, AgreeingCostTheSame, AgreeingLeastTheSame, ShownAreBest};

/// Weak duality for single pins: at any prices, no lawful assignment costs less than the prices show.
pub fn weak_duality()
    ensures pins { BoundsHold }
    ensures views { ViewBoundsHold }
{}

/// The order of costs is the order of assignments: fewer unplaced pins first, then less spent on moves.
pub fn cost_order()
    ensures split { CostsSplit }
    ensures moves_cost_less { MovesCostLess }
{}

/// An assignment that meets the bound of some prices is best.
pub fn best_at_bound()
    ensures { BestAtBound }
{}

/// Sums over pins are sums over groups, and over rows, of count times value.
pub fn sums_by_count()
    ensures groups { SumsOverGroups }
    ensures rows { SumsOverRows }
{}

/// Every assignment that agrees with rows has their cost, and at all prices their bound, and is best where prices show the
/// rows best.
pub fn agreeing_are_best()
    ensures cost { AgreeingCostTheSame }
    ensures least { AgreeingLeastTheSame }
    ensures best { ShownAreBest }
{}

ghost use Rattle.flow_planner_net.specs.RowLists.{SumsOverRows};
ghost use Rattle.flow_planner_net.specs.Slackness.{StatesAreShown};

/// A sum over the rows is a sum over groups and options.
pub fn sums_over_rows()
    ensures { SumsOverRows }
{}

/// A state in which no option has more pins than room costs what the bound of its prices is.
pub fn states_are_shown()
    ensures { StatesAreShown }
{}

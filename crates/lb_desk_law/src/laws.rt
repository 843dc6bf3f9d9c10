ghost use Rattle.lb_desk_law.specs.Headline.{OfEachInstall, SinceEachPoint, IsStaleExactly, IsStaleOnceChanged};
ghost use Rattle.lb_desk_law.specs.Headline.{KeepsPins, IsLawfulThen, IsBestThen, IsBadExactly};
ghost use Rattle.lb_desk_law.specs.Worlds.{AcceptedAreNeverBad};
ghost use Rattle.lb_desk_law.specs.LawfulViews.{ViewsAreLawful};
ghost use Rattle.lb_desk_law.specs.Parts.{PartsAreHistories};
ghost use Rattle.lb_desk_law.specs.SetPins.{ClearsAreOne, SetPinsAreKept, SetPinsMakeTheTable, SetsAreOne};
ghost use Rattle.lb_desk_law.specs.Examples.{RoundOfTwo, RoundOfFewer, LeastOfTwo, FirstOfTwo};

/// Each install of each history is stale exactly where the view has changed, and then changes nothing. Else it is refused exactly as
/// the check refuses it. Else each pin is kept, and the new places are lawful and best.
pub fn installs_are_stale_or_best()
    ensures stale { OfEachInstall IsStaleExactly }
    ensures changed { SinceEachPoint IsStaleOnceChanged }
    ensures kept { OfEachInstall KeepsPins }
    ensures lawful { OfEachInstall IsLawfulThen }
    ensures best { OfEachInstall IsBestThen }
    ensures bad { OfEachInstall IsBadExactly }
{}

/// A plan that the check accepts for a snapshot of the history, with the snapshot's version, is never answered Bad,
/// however often and wherever it is delivered, and whatever other plans are.
pub fn accepted_plans_are_never_bad()
    ensures { AcceptedAreNeverBad }
{}

/// In every history of a backend the view is lawful, so that there is a sheet of it, and a planner may be asked.
pub fn views_are_lawful()
    ensures { ViewsAreLawful }
{}

/// Wherever a history is cut, its parts are histories with one state between them. So what is said of a step after a history is said
/// of each step of each history.
pub fn parts_of_a_history()
    ensures { PartsAreHistories }
{}

/// A pin that was set is kept by the next request of its name, where its place is honoured: the server serves, and the rules name it or
/// no usable one.
pub fn a_pin_that_was_set_is_kept()
    ensures { SetPinsAreKept }
{}

/// Pins that are set in order of last use, into an empty table that is large enough, are the table.
pub fn pins_that_are_set_make_the_table()
    ensures { SetPinsMakeTheTable }
{}

/// A Set or a Clear of a state has one reply, and leaves one state.
pub fn sets_and_clears_are_one()
    ensures sets { SetsAreOne }
    ensures clears { ClearsAreOne }
{}

/// Worked picks of each balance on two servers.
pub fn worked_picks()
    ensures round { RoundOfTwo }
    ensures changed_weights { RoundOfFewer }
    ensures least { LeastOfTwo }
    ensures first { FirstOfTwo }
{}

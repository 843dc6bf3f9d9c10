ghost use Rattle.pin_moves.specs.Passes.{NoneIsGiven, OneIsGiven, PassesJoin, OrderIsFree, OthersAreLeft, NextIsLeft, WholePassesAgree};

/// A pass over pins that asks `Moving::next` once for each, in any order, always finds one left, and puts the pins where the plan
/// sends them.
///
/// `none`, `one` and `joined` say how a pass begins and goes on, so that a loop may keep what was given so far. `order`, `others` and
/// `next` say that it may ask for the next pin, and `whole` what holds at its end.
pub fn whole_passes_agree()
    ensures none { NoneIsGiven }
    ensures one { OneIsGiven }
    ensures joined { PassesJoin }
    ensures order { OrderIsFree }
    ensures others { OthersAreLeft }
    ensures next { NextIsLeft }
    ensures whole { WholePassesAgree }
{}

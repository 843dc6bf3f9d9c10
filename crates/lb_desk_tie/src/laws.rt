ghost use Rattle.std.specs.Prelude.{ℕ, List};
ghost use Rattle.lb_desk_tie.specs.Receipts.{Shares, AreApart};

/// Where lists of receipts share out a history, no two receipts have one number.
pub fn no_two_share_a_number<E>()
    ensures { (history : List E) (lists : List (List (ℕ × E))) → Shares history lists → AreApart lists }
{}

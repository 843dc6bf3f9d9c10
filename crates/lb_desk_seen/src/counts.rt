ghost use Rattle.lb_desk_seen.specs.Uses.{PinsAreInOrderOfUse};
ghost use Rattle.lb_desk_seen.specs.Counting.{WornIsExact, CountsAreFew, StepsFit, HistoriesFit};

/// In every history no pin was used before one that stands ahead of it.
pub fn pins_are_in_order_of_use()
    ensures { PinsAreInOrderOfUse }
{}

/// Versions, uses of pins and open connections are at most as many as the entries. Where no event was taken at which a desk is
/// exhausted, the version is at most 2^63, and entries and open connections together are at most 2^63 + 1.
pub fn counts_fit()
    ensures worn { WornIsExact }
    ensures few { CountsAreFew }
    ensures steps { StepsFit }
    ensures histories { HistoriesFit }
{}

ghost use Rattle.std.specs.Prelude.{◌≡◌};

use thiserror::Error;

/// Why a plan is refused. If several of these hold, the first is returned.
#[derive(Clone, Copy, Debug, PartialEq, Eq, Error)]
pub enum CheckFault {
    /// The plan is made for another sheet: its servers, their capacities or its pins by kind aren't the sheet's.
    #[error("the plan is made for another sheet")]
    RowsDiffer,
    /// A row sends pins to a server that they may not be at.
    #[error("a row sends pins to a server that they may not be at")]
    NotPermitted,
    /// A server gets more pins than its capacity.
    #[error("a server gets more pins than its capacity")]
    OverCapacity,
    /// The prices don't show that no plan costs less.
    #[error("the prices do not show that no plan costs less")]
    NotShown,
}

impl CheckFault {
    ghost use Rattle.cert_check.specs.Faults.{fault_text};

    /// The fault as it is printed: `50 RowsDiffer`, `51 NotPermitted`, `52 OverCapacity` or `53 NotShown`.
    pub fn text(self) -> &'static str
        ensures { result.now ≡ fault_text self }
    {
        match self {
            CheckFault::RowsDiffer => "50 RowsDiffer",
            CheckFault::NotPermitted => "51 NotPermitted",
            CheckFault::OverCapacity => "52 OverCapacity",
            CheckFault::NotShown => "53 NotShown",
        }
    }
}

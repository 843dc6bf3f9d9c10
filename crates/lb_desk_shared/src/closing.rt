ghost use Rattle.std.specs.Prelude.{◌≡◌};

use crate::naming::Naming;
use crate::tied::TiedDesk;
use lb_desk_model::Entry;
use lb_desk_tail::Tail;
use lb_desk_tie::Pass;
use std::hash::BuildHasher;

/// What is left of a desk that was closed.
#[derive(Debug, Drop)]
pub struct Closing {
    /// The newest entries of the whole history, and how many there were.
    pub journal: Tail<Entry>,
    /// Whether in each pass a later call has a greater number. It is always so.
    pub rising: bool,
}

/// Why a desk can't be closed yet.
#[derive(Clone, Copy, Debug, PartialEq, Eq, Hash)]
pub enum CloseFault {
    /// 82: fewer passes came back than were given out.
    PassesOut,
    /// 83: a connection is open.
    SlotsOut,
}

impl CloseFault {
    ghost use Rattle.lb_desk_shared.specs.Closing.{close_fault_number};

    /// The number of the fault, which docs/FAULTS.md lists.
    pub fn number(self) -> u16
        ensures { result ≡ close_fault_number self }
    {
        match self {
            CloseFault::PassesOut => 82,
            CloseFault::SlotsOut => 83,
        }
    }
}

/// A desk that can't be closed yet, and the passes that came back so far. `SharedDesk::of_tied` lets the desk go on as before.
#[derive(Drop)]
pub struct StillOut<S: BuildHasher, B: Naming> {
    pub fault: CloseFault,
    pub desk: TiedDesk<S, B>,
    pub passes: Vec<Pass<Entry, B>>,
}

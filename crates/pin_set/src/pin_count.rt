use lb_types::{Place, ServerSet};

/// How many pins have this place, want these servers and cost this much to move.
#[derive(Clone, Copy, Debug, PartialEq, Eq, Hash)]
pub struct PinCount {
    pub place: Place,
    pub want: ServerSet,
    /// 1 to 1000.
    pub cost: u16,
    pub count: u64,
}

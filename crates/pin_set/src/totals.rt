/// How good an assignment of places to pins is. Fewer unplaced pins come first, then a lower cost.
#[derive(Clone, Copy, Debug, PartialEq, Eq, Hash)]
pub struct Score {
    /// How many pins there are.
    pub pins: u64,
    /// How many pins are left without a server.
    pub unplaced: u64,
    /// How many pins change their place. A pin that loses its server is moved; one that had none and gets none isn't.
    pub moved: u64,
    /// The sum of the costs of the moved pins.
    pub cost: u64,
}

/// What a search knows of an option.
#[derive(Clone, Copy)]
pub struct Label {
    /// How much more the pins on the shortest way to it cost, at the prices. `FAR` where no way is known.
    pub dist: u64,
    /// The option before it on that way.
    pub source: usize,
    /// The group whose pins go from there to here.
    pub via: usize,
    /// How many options were settled before this one; for one that isn't settled, the number of options.
    pub rank: usize,
}

/// Farther than any way.
pub(crate) const FAR: u64 = 1 << 62;

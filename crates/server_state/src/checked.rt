use rise_fall::Flip;

/// What became of a check's result.
#[derive(Clone, Copy, Debug, PartialEq, Eq, Hash)]
pub enum Checked {
    /// It was taken, and changed this.
    Took(Flip),
    /// The server is in maintenance, where results are ignored.
    Ignored,
}

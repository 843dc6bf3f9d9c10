/// A place in a program where a test can hold a thread.
#[derive(Clone, Copy, Debug, PartialEq, Eq, Hash)]
pub enum Point {
    /// A plan is made and not installed yet.
    Planned,
    /// The head of a request was read, and nothing was asked for it yet.
    HeadRead,
}

/// What a thread passes at its points.
pub trait Gate<R> {
    /// Returns when the thread may go on.
    fn at(&self, rt: &R, point: Point);
}

/// The gate that holds nobody.
#[derive(Clone, Copy, Debug, PartialEq, Eq)]
pub struct OpenGate;

impl<R> Gate<R> for OpenGate {
    fn at(&self, _rt: &R, _point: Point) {}
}

/// Rests on a walk through many pairs, in which others get the processor.
pub trait Rests {
    /// Rests, if that is due once so many pairs were passed.
    fn rest_after(&self, pairs: usize);
}

/// No rest.
#[derive(Clone, Copy, Debug)]
pub struct NoRest;

impl Rests for NoRest {
    fn rest_after(&self, _pairs: usize) {}
}

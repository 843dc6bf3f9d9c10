/// A value under the number of its last use in the log.
#[derive(Drop)]
pub(crate) struct Stamped<V> {
    pub(crate) value: V,
    pub(crate) number: u64,
}

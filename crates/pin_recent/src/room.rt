use crate::Rests;
use std::alloc::{AllocError, Global};

/// Memory for the pairs of a copy. A copy that finds too little takes more, so how much there is decides only what it costs.
#[derive(Drop)]
pub struct CopyRoom<K, V> {
    pub(crate) pairs: Vec<(K, V)>,
}

impl<K, V> CopyRoom<K, V> {
    /// No memory. It allocates nothing.
    pub fn empty(alloc: Global) -> Self {
        CopyRoom {
            pairs: Vec::new(alloc),
        }
    }
}

impl<K: Clone + Drop, V: Copy> CopyRoom<K, V> {
    /// Memory for so many pairs, which was written to: the system gives memory at the first write to it, and that takes as long as
    /// a copy does. It costs that, with these rests, and as many clones of the key. The only error is out of memory.
    pub fn touched<P: Rests>(
        alloc: Global,
        key: &K,
        value: V,
        count: usize,
        rests: &P,
    ) -> Result<Self, AllocError> {
        let mut pairs = Vec::with_capacity(alloc, count)?;
        for _ in 0..count {
            pairs.push((key.clone()?, value))?;
            rests.rest_after(pairs.len());
        }
        pairs.clear();
        Ok(CopyRoom { pairs })
    }
}

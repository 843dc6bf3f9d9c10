//! Lists of numbers that don't fall, one after another.

use std::alloc::{AllocError, Global};

/// One of the lists of so many numbers below a base that don't fall, in their order.
#[derive(Debug, Drop)]
pub(crate) struct Rising {
    base: usize,
    numbers: Vec<usize>,
}

impl Rising {
    /// The first list, which is all zeros.
    pub(crate) fn new(alloc: Global, base: usize, len: usize) -> Result<Rising, AllocError> {
        Ok(Rising {
            base,
            numbers: vec![in alloc; 0; len]?,
        })
    }

    pub(crate) fn numbers(&self) -> &[usize] {
        &self.numbers
    }

    /// Goes on to the next list. False where there is none.
    pub(crate) fn advance(&mut self) -> bool {
        let base = self.base;
        let grows = |number: &usize| number.saturating_add(1) < base;
        let Some(at) = self.numbers.iter().rposition(grows) else {
            return false;
        };
        let grown = self
            .numbers
            .get(at)
            .map_or(0, |number| number.saturating_add(1));
        for number in self.numbers.iter_mut().skip(at) {
            *number = grown;
        }
        true
    }
}

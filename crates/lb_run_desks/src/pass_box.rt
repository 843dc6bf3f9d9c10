use lb_desk_model::Entry;
use lb_desk_shared::Naming;
use lb_desk_tie::Pass;
use std::alloc::{AllocError, Global};
use std::sync::{Mutex, Wait};

/// Where threads hand in their passes when they end.
#[derive(Drop)]
pub struct PassBox<B: Naming> {
    passes: Mutex<Vec<Pass<Entry, B>>>,
}

impl<B: Naming> PassBox<B> {
    /// An empty box with room for so many passes. All memory is taken here.
    pub fn new(alloc: Global, room: usize) -> Result<Self, AllocError> {
        Ok(PassBox {
            passes: Mutex::new(Vec::with_capacity(alloc, room)?),
        })
    }

    /// Takes the pass. Where the box is full and there is no memory, the pass is lost, and its desk can't be closed.
    pub fn hand_in<R: Wait>(&self, rt: &R, pass: Pass<Entry, B>) {
        let _ = self.passes.lock(rt).push(pass);
    }

    /// The passes that were handed in.
    pub fn into_passes(self) -> Vec<Pass<Entry, B>> {
        let PassBox { passes } = self;
        passes.into_inner()
    }
}

//! Where a call begins and ends that a test is of, and whether it was refused. A mark is a request for memory of a size that nothing
//! else here asks for. So `bench/refused`, which sees requests alone, knows which of them it may refuse, and what came of it.

use std::alloc::{AllocError, Global};

const BEGINS: usize = 65521;

const ENDS: usize = 65519;

const TELLS: usize = 65497;

pub(crate) fn begin(alloc: Global) -> Result<(), AllocError> {
    ask(alloc, BEGINS)
}

pub(crate) fn end(alloc: Global) -> Result<(), AllocError> {
    ask(alloc, ENDS)
}

/// The call said that it had no memory.
pub(crate) fn tell(alloc: Global) -> Result<(), AllocError> {
    ask(alloc, TELLS)
}

fn ask(alloc: Global, bytes: usize) -> Result<(), AllocError> {
    let mut room: Vec<u8> = Vec::with_capacity(alloc, bytes)?;
    room.push(0)?;
    Ok(())
}

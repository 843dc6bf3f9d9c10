ghost use Rattle.std.specs.Prelude.{None};

use command_socket_serve::Told;
use lb_desk_planner::Bell;
use std::alloc::{AllocError, Global};
use std::sync::Wait;

/// The bells of the backends that move pins by themselves, at the backends' places. An operator's change rings its backend's.
#[derive(Drop)]
pub(crate) struct Bells<'a, R> {
    pub(crate) rt: &'a R,
    pub(crate) bells: Vec<Option<Bell>>,
}

impl<R: Wait> Told for Bells<'_, R> {
    ghost told = { λ _. None };

    fn changed(&mut self, backend: usize) {
        if let Some(Some(bell)) = self.bells.get(backend) {
            bell.ring(self.rt);
        }
    }
}

/// The bell, once more.
pub(crate) fn copy_of(bell: &Option<Bell>) -> Result<Option<Bell>, AllocError> {
    match bell {
        Some(bell) => Ok(Some(bell.clone()?)),
        None => Ok(None),
    }
}

/// All of these bells, once more, at their places.
pub(crate) fn copies_of(
    alloc: Global,
    bells: &[Option<Bell>],
) -> Result<Vec<Option<Bell>>, AllocError> {
    let mut copies = Vec::with_capacity(alloc, bells.len())?;
    for bell in bells {
        copies.push(copy_of(bell)?)?;
    }
    Ok(copies)
}

ghost use Rattle.std.specs.Prelude.{◌≡◌, IfOk};
ghost use Rattle.lb_run_desks.specs.NewDesks.{AreNamed, numbers};

use crate::NewDesk;
use lb_desk_shared::{Naming, SharedDesk};
use std::alloc::{AllocError, Global};
use std::hash::BuildHasher;

/// The desks for many threads, each numbered by its place. The only error is out of memory.
pub fn named_desks<S: BuildHasher + Drop, B: Naming>(
    alloc: Global,
    news: Vec<NewDesk<S>>,
) -> Result<Vec<SharedDesk<S, B>>, AllocError>
    requires { AreNamed B.table_of B.opening B.journal_size news.items }
    ensures { IfOk result (λ desks. desks.items ≡ numbers news.items) }
{
    let mut desks = Vec::with_capacity(alloc, news.len())?;
    for new in news {
        let number = desks.len() as u64;
        desks.push(new.named(number))?;
    }
    Ok(desks)
}

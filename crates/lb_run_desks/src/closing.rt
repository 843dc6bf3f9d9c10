ghost use Rattle.std.specs.Prelude.{◌≡◌, [], Some, vec_len, IfErr, IfOk};
ghost use Rattle.lb_desk_shared.specs.Closing.{fault_of};
ghost use Rattle.lb_desk_tie.specs.Receipts.{AreOf};
ghost use Rattle.lb_run_desks.specs.Closed.{IsClosed, closed_line};

use lb_desk_model::Entry;
use lb_desk_shared::{Closing, Naming, SharedDesk, StillOut};
use lb_desk_tie::Pass;
use std::alloc::{AllocError, Global};
use std::hash::BuildHasher;

/// Closes the desk with those of the passes that are its own; the others are left. If it can't be closed, since a pass or a connection never
/// came back, it hands back the desk, its own passes and why. The only other error is out of memory.
///
/// It costs a look at each pass.
pub fn close_desk<S: BuildHasher + Drop, B: Naming>(
    alloc: Global,
    desk: SharedDesk<S, B>,
    passes: &mut Vec<Pass<Entry, B>>,
) -> Result<Result<Closing, StillOut<S, B>>, AllocError>
    ensures closed { IfOk result (λ end. IfOk end (IsClosed (B.opening desk) desk (B.journal_size desk))) }
    ensures open { IfOk result (λ end. IfErr end (λ out. AreOf desk out.passes.items
        × (out.desk.keeper.number ≡ desk
        → fault_of out.desk (vec_len out.passes) ≡ Some out.fault))) }
{
    let own = take_own(alloc, desk.number(), passes)?;
    Ok(desk.close(own))
}

/// Takes those of the passes out that the desk of this number gave out.
fn take_own<B: Naming>(
    alloc: Global,
    number: u64,
    passes: &mut Vec<Pass<Entry, B>>,
) -> Result<Vec<Pass<Entry, B>>, AllocError>
    ensures { IfOk result (λ own. AreOf number own.items) }
{
    let mut own = Vec::with_capacity(alloc, passes.len())?;
    let mut others = Vec::with_capacity(alloc, passes.len())?;
    while let Some(pass) = passes.pop() {
        if pass.keeper() == number {
            own.push(pass)?;
        } else {
            others.push(pass)?;
        }
    }
    *passes = others;
    Ok(own)
}

/// The line that says that the desk of this backend is closed, with the number of all its events, and whether the numbers of each pass
/// rose. The only error is out of memory.
pub fn closed_line(alloc: Global, backend: &[u8], closing: &Closing) -> Result<Vec<u8>, AllocError>
    ensures { IfOk result (λ line. line.items ≡ closed_line backend.now closing.now) }
{
    let mut line = Vec::new(alloc);
    line.extend_from_slice(b"closed ")?;
    line.extend_from_slice(backend)?;
    line.extend_from_slice(b" events ")?;
    line.extend_from_slice(closing.journal.next_number().to_string(alloc)?.as_bytes())?;
    line.extend_from_slice(b" rising ")?;
    line.extend_from_slice(if closing.rising {
        b"yes".as_slice()
    } else {
        b"no"
    })?;
    line.extend_from_slice(b"\n")?;
    Ok(line)
}

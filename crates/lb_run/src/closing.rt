ghost use Rattle.std.specs.Prelude.{IfOk, IsErrOf, OnOk};
ghost use Rattle.lb_types_counted.specs.Writers.{Rises, WritesWhole};
ghost use Rattle.lb_run.specs.Runs.{AreOpened, ClosedAs, EndsClosed, IsOpened};

use crate::RunFault;
use lb_config::{BackendConfig, Config};
use lb_desk_model::Entry;
use lb_desk_shared::{Naming, SharedDesk};
use lb_desk_tie::Pass;
use lb_run_desks::{close_desk, closed_line};
use lb_types::Counted;
use std::alloc::Global;
use std::hash::RandomState;
use std::io::Write;

/// Closes each desk with its passes, and writes a line for each, in the order of the backends. It can't write only where a write failed.
pub(crate) fn close_all<B: Naming, W: Write>(
    alloc: Global,
    config: &Config,
    desks: Vec<SharedDesk<RandomState, B>>,
    passes: Vec<Pass<Entry, B>>,
    out: &mut Counted<W>,
) -> Result<(), RunFault>
    requires { AreOpened B.opening B.journal_size config.now.backends desks.items }
    ensures closed { OnOk result (EndsClosed config.now.backends out.old.contents out.new.contents) }
    ensures cannot_write { IsErrOf result RunFault.CannotWrite → Rises out.old.failures out.new.failures }
{
    let mut passes = passes;
    let mut place = 0;
    for desk in desks {
        let line = close_one(alloc, &config.backends()[place], desk, &mut passes)?;
        write_line(out, &line)?;
        place += 1;
    }
    Ok(())
}

/// Closes the desk of this backend, and makes the line that says so.
fn close_one<B: Naming>(
    alloc: Global,
    backend: &BackendConfig,
    desk: SharedDesk<RandomState, B>,
    passes: &mut Vec<Pass<Entry, B>>,
) -> Result<Vec<u8>, RunFault>
    requires { IsOpened B.opening B.journal_size backend.now desk }
    ensures closed { IfOk result (λ line. ClosedAs backend.now line.items) }
    ensures unwritten { IsErrOf result RunFault.CannotWrite → ⊥ }
{
    match close_desk(alloc, desk, passes)? {
        Ok(closing) => Ok(closed_line(alloc, backend.name().as_bytes(), &closing)?),
        Err(still_out) => Err(RunFault::StillOpen(still_out.fault)),
    }
}

fn write_line<W: Write>(out: &mut Counted<W>, line: &[u8]) -> Result<(), RunFault>
    ensures whole { OnOk result (WritesWhole out.old out.new line.now) }
    ensures cannot_write { IsErrOf result RunFault.CannotWrite → Rises out.old.failures out.new.failures }
{
    match out.write_all(line) {
        Ok(()) => Ok(()),
        Err(_) => Err(RunFault::CannotWrite),
    }
}

use crate::{plan, plan_tables, version};
use lb_cli_ends::{JobError, end, opened};
use lb_types::Counted;
use std::alloc::Global;
use std::io::Write;
use std::rt::Files;

/// Does the job `plan` for the sheet in the file. The answer goes to `out`. What prevented the job goes to `err`. Returns the
/// program's exit status, that of `end`.
pub fn plan_file<R: Files, O: Write, E: Write>(
    alloc: Global,
    rt: &R,
    path: &str,
    out: &mut O,
    err: &mut E,
) -> u8 {
    let mut out = Counted::new(out);
    end(is_planned(alloc, rt, path, &mut out), path, err)
}

/// Does the job `plan --table` for the sheet in the file, as `plan_file` does.
pub fn tables_file<R: Files, O: Write, E: Write>(
    alloc: Global,
    rt: &R,
    path: &str,
    out: &mut O,
    err: &mut E,
) -> u8 {
    let mut out = Counted::new(out);
    end(has_tables(alloc, rt, path, &mut out), path, err)
}

/// Writes the program's version to `out`, or to `err` that it can't be written. Returns the program's exit status.
pub fn tell_version<O: Write, E: Write>(out: &mut O, err: &mut E) -> u8 {
    let mut out = Counted::new(out);
    end(version(&mut out), "", err)
}

/// Whether the file's text is a sheet's, of which a plan was written.
fn is_planned<R: Files, O: Write>(
    alloc: Global,
    rt: &R,
    path: &str,
    out: &mut Counted<O>,
) -> Result<bool, JobError> {
    let mut file = opened(rt, path)?;
    plan(alloc, &mut file, out)
}

/// Whether the file's text is a sheet's, of which a plan's tables were written.
fn has_tables<R: Files, O: Write>(
    alloc: Global,
    rt: &R,
    path: &str,
    out: &mut Counted<O>,
) -> Result<bool, JobError> {
    let mut file = opened(rt, path)?;
    plan_tables(alloc, &mut file, out)
}

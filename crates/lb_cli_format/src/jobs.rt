use crate::format;
use lb_cli_ends::{JobError, end, opened};
use lb_types::Counted;
use std::alloc::Global;
use std::io::Write;
use std::rt::Files;

/// Does the job `format` for the text in the file. The answer goes to `out`. What prevented the job goes to `err`. Returns the
/// program's exit status, that of `end`.
pub fn format_file<R: Files, O: Write, E: Write>(
    alloc: Global,
    rt: &R,
    path: &str,
    out: &mut O,
    err: &mut E,
) -> u8 {
    let mut out = Counted::new(out);
    end(is_formatted(alloc, rt, path, &mut out), path, err)
}

/// Whether the file's text means a sheet, which was written.
fn is_formatted<R: Files, O: Write>(
    alloc: Global,
    rt: &R,
    path: &str,
    out: &mut Counted<O>,
) -> Result<bool, JobError> {
    let mut file = opened(rt, path)?;
    format(alloc, &mut file, out)
}

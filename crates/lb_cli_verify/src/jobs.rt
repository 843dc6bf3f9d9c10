use crate::{sheet_for, verify, verify_for};
use dual_cert_plan::Sheet;
use lb_cli_ends::{JobError, end, opened};
use lb_types::Counted;
use std::alloc::Global;
use std::io::Write;
use std::rt::Files;

/// Does the job `verify` on the plan in the file. The answer goes to `out`. What prevented the job goes to `err`. Returns the
/// program's exit status, that of `end`.
pub fn verify_file<R: Files, O: Write, E: Write>(
    alloc: Global,
    rt: &R,
    path: &str,
    out: &mut O,
    err: &mut E,
) -> u8 {
    let mut out = Counted::new(out);
    end(is_best_plan(alloc, rt, path, &mut out), path, err)
}

/// Does the job `verify --sheet` on the plan in the one file for the sheet in the other, as `verify_file` does. The sheet is judged before
/// the plan is opened.
pub fn verify_files<R: Files, O: Write, E: Write>(
    alloc: Global,
    rt: &R,
    sheet_path: &str,
    plan_path: &str,
    out: &mut O,
    err: &mut E,
) -> u8 {
    let mut out = Counted::new(out);
    match read_sheet_file(alloc, rt, sheet_path, &mut out) {
        Ok(Some(sheet)) => end(
            is_best_plan_for(alloc, rt, &sheet, plan_path, &mut out),
            plan_path,
            err,
        ),
        Ok(None) => end(Ok(false), sheet_path, err),
        Err(error) => end(Err(error), sheet_path, err),
    }
}

/// Whether the file's plan is best.
fn is_best_plan<R: Files, O: Write>(
    alloc: Global,
    rt: &R,
    path: &str,
    out: &mut Counted<O>,
) -> Result<bool, JobError> {
    let mut file = opened(rt, path)?;
    Ok(verify(alloc, &mut file, out)?.is_best())
}

/// The file's sheet, where its text is one.
fn read_sheet_file<R: Files, O: Write>(
    alloc: Global,
    rt: &R,
    path: &str,
    out: &mut Counted<O>,
) -> Result<Option<Sheet>, JobError> {
    let mut file = opened(rt, path)?;
    sheet_for(alloc, &mut file, out)
}

/// Whether the file's plan is best for the sheet.
fn is_best_plan_for<R: Files, O: Write>(
    alloc: Global,
    rt: &R,
    sheet: &Sheet,
    path: &str,
    out: &mut Counted<O>,
) -> Result<bool, JobError> {
    let mut file = opened(rt, path)?;
    Ok(verify_for(alloc, sheet, &mut file, out)?.is_best())
}

use crate::answer::Answer;
use crate::commands::commands_answer;
use crate::sheet::sheet_answer;
use lb_cli_ends::{JobError, end, opened, whole};
use std::alloc::Global;
use std::io::Write;
use std::rt::Files;

/// Does the job `sheet` for the answers of HAProxy in the files. The answer goes to `out`. What prevented the job goes to `err`. Returns
/// the program's exit status, that of `end`.
pub fn sheet_file<R: Files, O: Write, E: Write>(
    alloc: Global,
    rt: &R,
    target: &str,
    state: &str,
    dump: &str,
    out: &mut O,
    err: &mut E,
) -> u8 {
    let state_text = match text_of(alloc, rt, state) {
        Ok(text) => text,
        Err(error) => return end(Err(error), state, err),
    };
    let dump_text = match text_of(alloc, rt, dump) {
        Ok(text) => text,
        Err(error) => return end(Err(error), dump, err),
    };
    match sheet_answer(alloc, target.as_bytes(), &state_text, &dump_text) {
        Ok(answer) => end(written(&answer, out), dump, err),
        Err(_) => end(Err(JobError::OutOfMemory), dump, err),
    }
}

/// Does the job `commands` for the answers of HAProxy and the plan in the files. The answer goes to `out`. What prevented the job goes to
/// `err`. Returns the program's exit status, that of `end`.
pub fn commands_file<R: Files, O: Write, E: Write>(
    alloc: Global,
    rt: &R,
    backend: &str,
    state: &str,
    dump: &str,
    plan: &str,
    out: &mut O,
    err: &mut E,
) -> u8 {
    let state_text = match text_of(alloc, rt, state) {
        Ok(text) => text,
        Err(error) => return end(Err(error), state, err),
    };
    let dump_text = match text_of(alloc, rt, dump) {
        Ok(text) => text,
        Err(error) => return end(Err(error), dump, err),
    };
    let plan_text = match text_of(alloc, rt, plan) {
        Ok(text) => text,
        Err(error) => return end(Err(error), plan, err),
    };
    match commands_answer(
        alloc,
        backend.as_bytes(),
        &state_text,
        &dump_text,
        &plan_text,
    ) {
        Ok(answer) => end(written(&answer, out), plan, err),
        Err(_) => end(Err(JobError::OutOfMemory), plan, err),
    }
}

/// All bytes of the file.
fn text_of<R: Files>(alloc: Global, rt: &R, path: &str) -> Result<Vec<u8>, JobError> {
    let mut file = opened(rt, path)?;
    whole(alloc, &mut file)
}

/// Writes the answer, and returns whether it is a good one.
fn written<O: Write>(answer: &Answer, out: &mut O) -> Result<bool, JobError> {
    match out.write_all(&answer.text) {
        Ok(()) => Ok(answer.is_good),
        Err(_) => Err(JobError::CannotWrite),
    }
}

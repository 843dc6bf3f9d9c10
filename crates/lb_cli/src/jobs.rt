use crate::{Asides, check, check_all};
use lb_cli_ends::{JobError, end, opened, whole};
use lb_cli_format::format_file;
use lb_cli_haproxy::{commands_file, sheet_file};
use lb_cli_plans::{plan_file, tables_file, tell_version};
use lb_cli_verify::{verify_file, verify_files};
use lb_cli_words::Job;
use lb_config_arguments::read_time;
use lb_replay::replay;
use lb_types::Counted;
use std::alloc::Global;
use std::io::{BufRead, BufReader, BufWriter, Write};
use std::rt::Files;

/// What came of a job.
#[derive(Debug, Drop)]
pub enum Performed<'a> {
    /// The job was done, or it failed and the reason was printed. The program exits with this status.
    Ended(u8),
    /// The configuration with this text, read from this file, must be run, with pins that outlive the process if that is asked for. That
    /// takes threads and sockets, so it is left to the caller, and `end` reports what comes of it.
    Run {
        file: &'a str,
        text: Vec<u8>,
        pins: Option<KeptPins<'a>>,
    },
}

/// Where pins outlive the process.
#[derive(Clone, Copy, Debug, PartialEq, Eq)]
pub struct KeptPins<'a> {
    /// The file.
    pub path: &'a str,
    /// How often it is written while the balancer runs, in milliseconds, at most 2147483647; 0 for never.
    pub every: u32,
}

/// Which faults of a configuration are reported.
#[derive(Clone, Copy, Debug, PartialEq, Eq)]
enum Wanted {
    FirstFault,
    AllFaults(Asides),
}

/// How often the pins are written, in milliseconds, where the words don't say.
const PINS_EVERY: u32 = 10_000;

/// Does the job and returns the program's exit status, that of `end`. The answer goes to `out`. What prevented the job goes to `err`.
/// A configuration to run is only read, and its text returned.
pub fn perform<'a, R: Files, O: Write, E: Write>(
    alloc: Global,
    rt: &R,
    job: Job<'a>,
    out: &mut O,
    err: &mut E,
) -> Performed<'a> {
    let status = match job {
        Job::Verify { file } => verify_file(alloc, rt, file, out, err),
        Job::VerifyForSheet { sheet, plan } => verify_files(alloc, rt, sheet, plan, out, err),
        Job::Plan { file } => plan_file(alloc, rt, file, out, err),
        Job::PlanTable { file } => tables_file(alloc, rt, file, out, err),
        Job::Format { file } => format_file(alloc, rt, file, out, err),
        Job::Sheet {
            target,
            state,
            dump,
        } => sheet_file(alloc, rt, target, state, dump, out, err),
        Job::Commands {
            backend,
            state,
            dump,
            plan,
        } => commands_file(alloc, rt, backend, state, dump, plan, out, err),
        Job::Version => tell_version(out, err),
        Job::Check { file } => check_file(alloc, rt, file, Wanted::FirstFault, out, err),
        Job::CheckAll { file } => {
            let wanted = Wanted::AllFaults(Asides::Warnings);
            check_file(alloc, rt, file, wanted, out, err)
        }
        Job::CheckHaproxy { file } => {
            let wanted = Wanted::AllFaults(Asides::Differences);
            check_file(alloc, rt, file, wanted, out, err)
        }
        Job::Replay { config, script } => replay_files(alloc, rt, config, script, out, err),
        Job::Run { file } => return to_run(alloc, rt, file, None, err),
        Job::RunWithPins { file, pins, every } => match every_of(every) {
            Ok(every) => {
                let pins = KeptPins { path: pins, every };
                return to_run(alloc, rt, file, Some(pins), err);
            }
            Err(word) => refuse_time(word, err),
        },
    };
    Performed::Ended(status)
}

/// The configuration in this file, which must be run.
fn to_run<'a, R: Files, E: Write>(
    alloc: Global,
    rt: &R,
    file: &'a str,
    pins: Option<KeptPins<'a>>,
    err: &mut E,
) -> Performed<'a> {
    match whole_file(alloc, rt, file) {
        Ok(text) => Performed::Run { file, text, pins },
        Err(error) => Performed::Ended(end(Err(error), file, err)),
    }
}

/// How often the pins are written, in milliseconds. The error is the word, where that is no time.
fn every_of(word: Option<&str>) -> Result<u32, &str> {
    match word {
        None => Ok(PINS_EVERY),
        Some(word) => read_time(word.as_bytes()).map_err(|_| word),
    }
}

/// Says on standard error that the word is no time. Returns the status for wrong words.
fn refuse_time<E: Write>(word: &str, err: &mut E) -> u8 {
    let _ = writeln!(err, "--pins-every {word}: 24 BadNumber");
    2
}

/// Does the job `check`, `check --all` or `check --haproxy`.
fn check_file<R: Files, O: Write, E: Write>(
    alloc: Global,
    rt: &R,
    path: &str,
    wanted: Wanted,
    out: &mut O,
    err: &mut E,
) -> u8 {
    let mut out = Counted::new(out);
    end(
        is_valid_config(alloc, rt, path, wanted, &mut out),
        path,
        err,
    )
}

/// Does the job `replay`: the one file's script at the backend of the other's configuration, which is judged before anything else
/// is reported.
fn replay_files<R: Files, O: Write, E: Write>(
    alloc: Global,
    rt: &R,
    config_path: &str,
    script_path: &str,
    out: &mut O,
    err: &mut E,
) -> u8 {
    let mut out = Counted::new(out);
    match whole_file(alloc, rt, config_path) {
        Ok(config) => {
            let done = replay_file(alloc, rt, &config, script_path, &mut out, err);
            end(done, script_path, err)
        }
        Err(error) => end(Err(error), config_path, err),
    }
}

/// Whether the file's configuration is valid.
fn is_valid_config<R: Files, O: Write>(
    alloc: Global,
    rt: &R,
    path: &str,
    wanted: Wanted,
    out: &mut Counted<O>,
) -> Result<bool, JobError> {
    let mut file = opened(rt, path)?;
    match wanted {
        Wanted::FirstFault => check(alloc, &mut file, out),
        Wanted::AllFaults(asides) => check_all(alloc, &mut file, asides, out),
    }
}

fn whole_file<R: Files>(alloc: Global, rt: &R, path: &str) -> Result<Vec<u8>, JobError> {
    let mut file = opened(rt, path)?;
    whole(alloc, &mut file)
}

/// Whether nothing prevented the replay of the file's script.
fn replay_file<R: Files, O: Write, E: Write>(
    alloc: Global,
    rt: &R,
    config: &[u8],
    path: &str,
    out: &mut Counted<O>,
    err: &mut E,
) -> Result<bool, JobError> {
    let Ok(script) = opened(rt, path) else {
        // A fault of the configuration goes before a script that can't be opened.
        let is_judged = replay_lines(alloc, config, b"".as_slice(), out, err)?;
        return if is_judged {
            Err(JobError::CannotRead)
        } else {
            Ok(false)
        };
    };
    match BufReader::new(alloc, script) {
        Ok(script) => replay_lines(alloc, config, script, out, err),
        Err(_) => Err(JobError::OutOfMemory),
    }
}

/// Replays lines with an answer that is buffered, so that many short ones cost few writes.
fn replay_lines<S: BufRead + Drop, O: Write, E: Write>(
    alloc: Global,
    config: &[u8],
    script: S,
    out: &mut Counted<O>,
    err: &mut E,
) -> Result<bool, JobError> {
    let Ok(buffer) = BufWriter::new(alloc, out) else {
        return Err(JobError::OutOfMemory);
    };
    let mut answers = Counted::new(buffer);
    let done = replay(alloc, config, script, &mut answers, err);
    // What was answered stands, even if the job ends after it.
    let flushed = answers.flush();
    let is_whole = done?;
    match flushed {
        Ok(()) => Ok(is_whole),
        Err(_) => Err(JobError::CannotWrite),
    }
}

//! `stickylb` without all that needs a configuration: a small program for the jobs on sheets and plans, which is proved in minutes.
//! `lb_cli_start` has the words of the command line read, and `lb_cli_format`, `lb_cli_verify` or `lb_cli_plans` does the job that they ask for.
#![tactic(auto)]

use lb_cli_format::format_file;
use lb_cli_plans::{plan_file, tables_file, tell_version};
use lb_cli_start::{asked_job, command_line, texts_of};
use lb_cli_verify::{verify_file, verify_files};
use lb_cli_words::Job;
use std::process::ExitCode;

fn main(rt: HostRuntime) -> ExitCode {
    match perform_words(&rt) {
        Ok(status) | Err(status) => ExitCode::from(status),
    }
}

/// Does the job that the words ask for, and gives the status to exit with, also where they ask for none.
fn perform_words(rt: &HostRuntime) -> Result<u8, u8> {
    let words = command_line(rt)?;
    let texts = texts_of(rt, &words)?;
    let job = asked_job(rt, &texts)?;
    match perform(rt, job) {
        Some(status) => Ok(status),
        None => {
            let _ = eprintln!(rt; "this program has no such job: run stickylb");
            Err(2)
        }
    }
}

/// Does a job on sheets and plans, or prints the version, and gives the exit status. None where the job needs a configuration.
fn perform(rt: &HostRuntime, job: Job<'_>) -> Option<u8> {
    let alloc = rt.alloc();
    let (out, err) = (&mut rt.stdout(), &mut rt.stderr());
    match job {
        Job::Verify { file } => Some(verify_file(alloc, rt, file, out, err)),
        Job::VerifyForSheet { sheet, plan } => {
            Some(verify_files(alloc, rt, sheet, plan, out, err))
        }
        Job::Plan { file } => Some(plan_file(alloc, rt, file, out, err)),
        Job::PlanTable { file } => Some(tables_file(alloc, rt, file, out, err)),
        Job::Format { file } => Some(format_file(alloc, rt, file, out, err)),
        Job::Version => Some(tell_version(out, err)),
        Job::Check { .. }
        | Job::CheckAll { .. }
        | Job::Sheet { .. }
        | Job::Commands { .. }
        | Job::CheckHaproxy { .. }
        | Job::Replay { .. }
        | Job::Run { .. }
        | Job::RunWithPins { .. } => None,
    }
}

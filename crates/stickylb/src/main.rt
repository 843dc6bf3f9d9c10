//! `stickylb`: a load balancer whose promises are proved. `lb_cli_start` has the words of the command line read,
//! `lb_cli` does the job that they ask for, and `lb_run` balances.
#![tactic(auto)]

use lb_cli::{KeptPins, Performed, end, perform};
use lb_cli_start::{asked_job, command_line, texts_of};
use lb_run::{PinsPlace, run_text_keeping};
use lb_types::Counted;
use std::marker::PhantomData;
use std::net::{TcpListener, TcpStream};
use std::process::ExitCode;

fn main(rt: HostRuntime) -> ExitCode {
    let words = match command_line(&rt) {
        Ok(words) => words,
        Err(status) => return ExitCode::from(status),
    };
    let texts = match texts_of(&rt, &words) {
        Ok(texts) => texts,
        Err(status) => return ExitCode::from(status),
    };
    let job = match asked_job(&rt, &texts) {
        Ok(job) => job,
        Err(status) => return ExitCode::from(status),
    };
    // The prover wants the types of sockets named where threads get them.
    let _sockets: PhantomData<(TcpListener, TcpStream)> = PhantomData;
    let mut out = Counted::new(rt.stdout());
    let mut err = Counted::new(rt.stderr());
    match perform(rt.alloc(), &rt, job, &mut out, &mut err) {
        Performed::Ended(status) => ExitCode::from(status),
        Performed::Run { file, text, pins } => {
            let done = run_text_keeping(&rt, rt.alloc(), &text, place_of(pins), &mut out, &mut err);
            ExitCode::from(end(done, file, &mut err))
        }
    }
}

/// Where pins outlive the process, as `lb_run` takes it.
fn place_of(pins: Option<KeptPins<'_>>) -> Option<PinsPlace<'_>> {
    match pins {
        Some(KeptPins { path, every }) => Some(PinsPlace { path, every }),
        None => None,
    }
}

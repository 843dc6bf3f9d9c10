ghost use Rattle.std.specs.Prelude.{◌≡◌, List};
ghost use Rattle.check_workers_round.specs.declared.outcome.Round.{Round};
ghost use Rattle.check_workers_loop.specs.Loops.{TakesOn, TakeOn, work};

use crate::Flips;
use crate::flips::tell_flip;
use check_workers_round::{Beginning, Check, Probes, Round, make_round};
use crossbeam_channel::{Receiver, RecvTimeoutError};
use lb_desk_ports::{Clock, Port};
use std::sync::Wait;
use std::time;
use std::time::Duration;

/// Checks the servers as their time comes, until the stop channel closes or gives anything. With no check it returns at once.
///
/// Probes of several servers are under way at once, so none waits for another's. A stop is seen at once where none is under way, and
/// within 50 ms else; a probe that is under way then files nothing. A backend that refuses a result loses it, and the server is checked
/// again when next due.
pub fn check_until_stopped<R: Wait + time::Clock, P: Probes, K: Clock<R>, Q: Port<R>, F: Flips<R>>(
    rt: &R,
    probes: &mut P,
    clock: &mut K,
    port: &mut Q,
    flips: &mut F,
    checks: &mut [Check],
    stop: &Receiver<()>,
)
    ensures work { (rounds : List Round) × TakeOn
        (work checks.old (K.told clock.old) (P.under_way probes.old) (P.begun probes.old) (P.ended probes.old) (Q.entries port.old) (Q.refusals port.old) (F.told flips.old))
        (work checks.new (K.told clock.new) (P.under_way probes.new) (P.begun probes.new) (P.ended probes.new) (Q.entries port.new) (Q.refusals port.new) (F.told flips.new)) rounds }
    ensures pauses { K.pauses clock.new ≡ K.pauses clock.old }
{
    if checks.is_empty() {
        return;
    }
    for _ in rt.forever() {
        let round = check_once(rt, probes, clock, port, flips, checks);
        let wait = match round.beginning {
            Beginning::NotDue(wait) if round.made.is_none() && is_idle(probes, checks) => wait,
            _ => 0,
        };
        if is_stopped(rt, stop, wait) {
            return;
        }
    }
}

/// Makes a round, and reports the flip that it made.
fn check_once<R, P: Probes, K: Clock<R>, Q: Port<R>, F: Flips<R>>(
    rt: &R,
    probes: &mut P,
    clock: &mut K,
    port: &mut Q,
    flips: &mut F,
    checks: &mut [Check],
) -> Round
    ensures work { TakesOn
        (work checks.old (K.told clock.old) (P.under_way probes.old) (P.begun probes.old) (P.ended probes.old) (Q.entries port.old) (Q.refusals port.old) (F.told flips.old))
        (work checks.new (K.told clock.new) (P.under_way probes.new) (P.begun probes.new) (P.ended probes.new) (Q.entries port.new) (Q.refusals port.new) (F.told flips.new)) result }
    ensures pauses { K.pauses clock.new ≡ K.pauses clock.old }
{
    let round = make_round(rt, probes, clock, port, checks);
    tell_flip(rt, flips, round.made);
    round
}

/// Whether no probe of these checks is under way.
fn is_idle<P: Probes>(probes: &P, checks: &[Check]) -> bool {
    !checks.iter().any(|check| probes.is_under_way(check.server))
}

/// Whether a stop comes within so many milliseconds.
fn is_stopped<R: Wait + time::Clock>(rt: &R, stop: &Receiver<()>, millis: u64) -> bool {
    match stop.recv_timeout(rt, Duration::from_millis(millis)) {
        Err(RecvTimeoutError::Timeout) => false,
        Ok(()) | Err(RecvTimeoutError::Disconnected) => true,
    }
}

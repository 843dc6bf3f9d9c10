ghost use Rattle.std.specs.Prelude.{◌≡◌, ◌++◌, [], ◌∷◌};
ghost use Rattle.std.specs.Option.{option_to_list};
ghost use Rattle.lb_desk_ports.specs.Calls.{Grows};
ghost use Rattle.check_workers_round.specs.Probing.{Ends};
ghost use Rattle.check_workers_round.specs.Rounds.{Schedules, begun_by, with_begun, ended_by, entries_of, refusals_after};

use crate::check::{first_due, later, wait_until};
use crate::{Beginning, Check, CheckMade, Probed, Probes, Round};
use lb_desk_ports::{Clock, Port};
use lb_types::Moment;

/// How many milliseconds a round waits at most for a probe to end.
const TICK_MILLIS: u64 = 50;

/// Begins the probe whose check is due first, if it is due, and files the result of one that has ended. Where none was begun it waits
/// for one to end, until a check is due and at most 50 ms. It costs a look at each check, and an event at the backend where a probe has
/// ended.
pub fn make_round<R, P: Probes, K: Clock<R>, Q: Port<R>>(
    rt: &R,
    probes: &mut P,
    clock: &mut K,
    port: &mut Q,
    checks: &mut [Check],
) -> Round
    ensures moment { Grows (K.told clock.old) (K.told clock.new) (result.begun ∷ []) }
    ensures pauses { K.pauses clock.new ≡ K.pauses clock.old }

    // The check was due first; it alone is put off, and a probe of just its server was begun. Or none is due yet.
    ensures checks { Schedules (P.under_way probes.old) checks.old checks.new result.begun result.beginning }
    ensures begun { Grows (P.begun probes.old) (P.begun probes.new) (begun_by result.beginning) }

    // A probe that was under way has ended, and the result was filed under its server. Or none has.
    ensures under_way { Ends (with_begun (P.under_way probes.old) result.beginning) (P.under_way probes.new) (ended_by result.made) }
    ensures ended { Grows (P.ended probes.old) (P.ended probes.new) (option_to_list (ended_by result.made)) }
    ensures entries { Q.entries port.new ≡ Q.entries port.old ++ entries_of result.made }
    ensures refusals { Q.refusals port.new ≡ refusals_after result.made (Q.refusals port.old) }
{
    let begun = clock.now(rt);
    let beginning = begin_first(probes, checks, begun);
    let wait = match beginning {
        Beginning::Begun(_) => 0,
        Beginning::NotDue(wait) => wait.min(TICK_MILLIS),
        Beginning::NoneFree => TICK_MILLIS,
    };
    let made = finish_one(rt, probes, port, wait);
    Round {
        begun,
        beginning,
        made,
    }
}

/// Begins the probe of the check that is due first, if it is due at this moment.
fn begin_first<P: Probes>(probes: &mut P, checks: &mut [Check], begun: Moment) -> Beginning
    ensures checks { Schedules (P.under_way probes.old) checks.old checks.new begun result }
    ensures begun { Grows (P.begun probes.old) (P.begun probes.new) (begun_by result) }
    ensures under_way { P.under_way probes.new ≡ with_begun (P.under_way probes.old) result }
    ensures ended { P.ended probes.new ≡ P.ended probes.old }
{
    let Some((place, first)) = first_due(probes, checks) else {
        return Beginning::NoneFree;
    };
    let Check {
        server,
        interval,
        due,
    } = first;
    let wait = wait_until(begun, due);
    if wait > 0 {
        return Beginning::NotDue(wait);
    }
    probes.begin(server);
    checks[place] = Check {
        server,
        interval,
        due: later(begun, interval),
    };
    Beginning::Begun(server)
}

/// Files the result of a probe that has ended under its server, and waits for one at most so many milliseconds.
fn finish_one<R, P: Probes, Q: Port<R>>(
    rt: &R,
    probes: &mut P,
    port: &mut Q,
    millis: u64,
) -> Option<CheckMade>
    ensures under_way { Ends (P.under_way probes.old) (P.under_way probes.new) (ended_by result) }
    ensures ended { Grows (P.ended probes.old) (P.ended probes.new) (option_to_list (ended_by result)) }
    ensures begun { P.begun probes.new ≡ P.begun probes.old }
    ensures entries { Q.entries port.new ≡ Q.entries port.old ++ entries_of result }
    ensures refusals { Q.refusals port.new ≡ refusals_after result (Q.refusals port.old) }
{
    let Probed { server, ok } = probes.next_ended(millis)?;
    let filed = port.check(rt, server, ok);
    Some(CheckMade { server, ok, filed })
}

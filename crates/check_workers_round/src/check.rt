ghost use Rattle.std.specs.Prelude.{◌≡◌, ◌+◌, ◌-◌, ◌^◌, min, IfSome, IfNone, All};
ghost use Rattle.check_workers_round.specs.Rounds.{IsFirst, IsFree};
ghost use Rattle.check_workers_round.specs.Sooner.{is_sooner};

use crate::Probes;
use lb_types::{Moment, ServerId};

/// When a server is checked.
#[derive(Clone, Copy, Debug, PartialEq, Eq)]
pub struct Check {
    pub server: ServerId,
    /// The milliseconds from one probe's begin to the next.
    pub interval: u32,
    /// When it is probed next.
    pub due: Moment,
}

/// The moment so many milliseconds later, at most 2^64 - 1.
pub(crate) fn later(moment: Moment, millis: u32) -> Moment
    ensures { result ≡ min (moment + millis) (2 ^ 64 - 1) }
{
    Moment::from_millis(moment.as_millis().saturating_add(u64::from(millis)))
}

/// The milliseconds from the moment to the end, and 0 where that has come.
pub(crate) fn wait_until(moment: Moment, end: Moment) -> u64
    ensures { result ≡ end - moment }
{
    end.as_millis().saturating_sub(moment.as_millis())
}

/// Of the checks whose servers aren't being probed the one that is due first, if there is one, with its place before it. It costs a look
/// at each.
pub(crate) fn first_due<P: Probes>(probes: &P, checks: &[Check]) -> Option<(usize, Check)>
    ensures some { IfSome result (λ found. IsFirst (P.under_way probes.now) checks.now found.0 found.1) }
    ensures none { IfNone result (All (λ check. ¬ IsFree (P.under_way probes.now) check) checks.now) }
{
    let mut found = None;
    let mut place = 0;
    while place < checks.len() {
        let check = checks[place];
        if !probes.is_under_way(check.server) && is_sooner(&check, &found) {
            found = Some((place, check));
        }
        place += 1;
    }
    found
}

/// Whether the check is due before the one that was found so far, if one was.
fn is_sooner(check: &Check, found: &Option<(usize, Check)>) -> bool
    ensures { result ≡ is_sooner check.now found.now }
{
    match found {
        Some((_, first)) => check.due.as_millis() < first.due.as_millis(),
        None => true,
    }
}

ghost use Rattle.std.specs.Prelude.{◌≤◌};

use rise_fall::Flip::{self, Stays, WentDown, WentUp};
use rise_fall::Health;
use std::alloc::{AllocError, Global};
use std::process::Abort;

/// What happens to a server's health.
#[derive(Clone, Copy, Debug)]
enum Step {
    /// A check's result comes, and changes this.
    Takes(bool, Flip),
    /// An operator sets it.
    Forced(bool),
    /// Maintenance ends.
    Rewarmed,
}

use Step::{Forced, Rewarmed, Takes};

// Each step with whether the server counts as up after it. At the start one failure brings it down; then two successes in a row bring
// it up, and three failures in a row down, whatever came before them.
const OF_TWO_AND_THREE: &[&[(Step, bool)]] = &[
    &[
        (Takes(false, WentDown), false),
        (Takes(true, Stays), false),
        (Takes(true, WentUp), true),
        (Takes(false, Stays), true),
        (Takes(false, Stays), true),
        (Takes(true, Stays), true),
        (Takes(false, Stays), true),
        (Takes(false, Stays), true),
        (Takes(false, WentDown), false),
    ],
    // One that is forced up needs all its failures.
    &[
        (Forced(true), true),
        (Takes(false, Stays), true),
        (Takes(false, Stays), true),
        (Takes(false, WentDown), false),
    ],
    // The end of maintenance warms it anew.
    &[
        (Forced(false), false),
        (Rewarmed, true),
        (Takes(false, WentDown), false),
    ],
];

const OF_ONE_AND_ONE: &[(Step, bool)] = &[
    (Takes(false, WentDown), false),
    (Takes(true, WentUp), true),
    (Takes(true, Stays), true),
];

/// Takes the steps, and compares after each.
fn go_through(rt: &impl Abort, mut health: Health, steps: &[(Step, bool)]) {
    for (step, up) in steps {
        let is_right = match step {
            Takes(ok, flip) => health.take(*ok) == *flip,
            Forced(up) => {
                health.force(*up);
                true
            }
            Rewarmed => {
                health.rewarm();
                true
            }
        };
        assert!(rt; is_right && health.is_up() == *up, "{step:?} in {steps:?}");
    }
}

#[test]
fn only_results_in_a_row_count(rt: HostRuntime) {
    for steps in OF_TWO_AND_THREE {
        go_through(&rt, Health::new(2, 3), *steps);
    }
    go_through(&rt, Health::new(1, 1), OF_ONE_AND_ONE);
}

/// The results that a base puts before the first one: how many, and which.
#[derive(Clone, Copy, Debug)]
enum Base {
    Fresh,
    ForcedUp,
    ForcedDown,
}

/// The results that are taken to stand before the first one.
fn before(alloc: Global, rise: u16, fall: u16, base: Base) -> Result<Vec<bool>, AllocError> {
    let (ok, count) = match base {
        Base::Fresh => (false, fall.saturating_sub(1)),
        Base::ForcedUp => (true, rise),
        Base::ForcedDown => (false, fall),
    };
    let mut results = Vec::new(alloc);
    for _ in 0..count {
        results.push(ok)?;
    }
    Ok(results)
}

/// Whether the `count` results that end at position `n` are all `ok`.
fn ends_in(results: &[bool], n: usize, ok: bool, count: usize) -> bool {
    count <= n && n <= results.len() && results[n - count..n].iter().all(|one| *one == ok)
}

/// The last success or failure position is a success position, or there is none.
fn is_up_plainly(rise: u16, fall: u16, results: &[bool]) -> bool {
    for n in (1..=results.len()).rev() {
        if ends_in(results, n, true, usize::from(rise)) {
            return true;
        }
        if ends_in(results, n, false, usize::from(fall)) {
            return false;
        }
    }
    true
}

/// The health of a server at this base.
fn health_at(rise: u16, fall: u16, base: Base) -> Health
    requires rise_in_range { (1 ≤ rise) × (rise ≤ 1000) }
    requires fall_in_range { (1 ≤ fall) × (fall ≤ 1000) }
{
    let mut health = Health::new(rise, fall);
    match base {
        Base::Fresh => health.rewarm(),
        Base::ForcedUp => health.force(true),
        Base::ForcedDown => health.force(false),
    }
    health
}

/// Takes eight results, the bits of `bits` from the lowest on, and compares at the start and after each.
fn compare(
    rt: &impl Abort,
    mut health: Health,
    mut results: Vec<bool>,
    rise: u16,
    fall: u16,
    bits: u32,
) {
    let mut rest = bits;
    let mut up = is_up_plainly(rise, fall, &results);
    assert_eq!(rt; health.is_up(), up);
    for _ in 0..8 {
        let ok = rest % 2 == 1;
        rest /= 2;
        results.push(ok).expect(rt, "memory");
        let now = is_up_plainly(rise, fall, &results);
        let flip = if now == up {
            Stays
        } else if now {
            WentUp
        } else {
            WentDown
        };
        let told = (health.take(ok), health.is_up());
        assert_eq!(rt; told, (flip, now), "rise {rise} fall {fall} {results:?}");
        up = now;
    }
}

#[test]
fn every_list_of_up_to_eight_results_says_what_the_definition_says(rt: HostRuntime) {
    for rise in 1..4u16 {
        for fall in 1..4u16 {
            for base in [Base::Fresh, Base::ForcedUp, Base::ForcedDown] {
                for bits in 0..256 {
                    let results = before(rt.alloc(), rise, fall, base).expect(&rt, "memory");
                    compare(&rt, health_at(rise, fall, base), results, rise, fall, bits);
                }
            }
        }
    }
}

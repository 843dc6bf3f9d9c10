ghost use Rattle.std.specs.Prelude.{◌≡◌, ◌≤◌, ℕ, List, Some, IfOk};
ghost use Rattle.lb_types.specs.declared.limits.TheConstants.{MAX_COST};
ghost use Rattle.set_cookie.specs.TaughtKeys.{IsTaught, IsTaughtKey};
ghost use Rattle.http_relay_talk.specs.Lessons.{IsTaughtPin};

use lb_acl::StickOn;
use lb_desk_model::SetPin;
use lb_types::{Moment, ServerId, ServerSet};
use pin_set::{PinId, PinKey};
use set_cookie::{TaughtKey, taught_key};
use std::alloc::{AllocError, Global};
use std::marker::Model;

/// What the answer to a request may teach its backend: that the session of a key is at the server that gave its client the key.
#[derive(Debug, Drop)]
pub struct Lesson<'a> {
    alloc: Global,
    pattern: &'a StickOn,
    want: ServerSet,
    cost: u16,
    moment: Moment,
}

impl<'a> Model for Lesson<'a> {
    ghost use Rattle.std.specs.Prelude.{◌≤◌};
    ghost use Rattle.lb_types.specs.declared.limits.TheConstants.{MAX_COST};
    ghost use Rattle.http_relay_talk.specs.Lessons.{LessonView};

    ghost Value = { LessonView };

    ghost view = { λ lesson. record {
      pattern = lesson.pattern.now;
      want = lesson.want;
      cost = lesson.cost;
      moment = lesson.moment;
    } };

    ghost invariant = { λ lesson. (1 ≤ lesson.cost) × (lesson.cost ≤ MAX_COST) };
}

impl<'a> Lesson<'a> {
    /// The lesson of an answer from which keys are taken by this pattern, to a request of this moment that wants these servers and has this
    /// cost, 1 to 1000. `alloc` gives memory for a key, and for an answer's head that comes in several pieces.
    pub fn new(
        alloc: Global,
        pattern: &'a StickOn,
        want: ServerSet,
        cost: u16,
        moment: Moment,
    ) -> Self
        requires least { 1 ≤ cost }
        requires greatest { cost ≤ MAX_COST }
        ensures { result ≡ record { pattern = pattern.now; want = want; cost = cost; moment = moment } }
    {
        Lesson {
            alloc,
            pattern,
            want,
            cost,
            moment,
        }
    }

    /// The same lesson.
    pub(crate) fn copied(&self) -> Self
        ensures { result ≡ self.now }
    {
        Lesson {
            alloc: self.alloc,
            pattern: self.pattern,
            want: self.want,
            cost: self.cost,
            moment: self.moment,
        }
    }

    /// What gives memory for the lesson.
    pub(crate) fn alloc(&self) -> Global {
        self.alloc
    }

    /// What this answer teaches. The only error is out of memory.
    pub(crate) fn key(&self, answer: &[u8]) -> Result<TaughtKey, AllocError>
        ensures { IfOk result (λ found. IsTaught self.now.pattern answer.now found) }
    {
        taught_key(self.alloc, self.pattern, answer)
    }

    /// The pin of this key at the server, which an answer teaches that teaches the key.
    pub(crate) fn pin(&self, key: PinKey, server: ServerId) -> SetPin
        ensures { (answer : List ℕ) → IsTaughtKey self.now.pattern answer (Some key)
            → IsTaughtPin self.now server answer result }
    {
        SetPin {
            name: PinId {
                key,
                want: self.want,
            },
            server,
            cost: self.cost,
            moment: self.moment,
        }
    }
}

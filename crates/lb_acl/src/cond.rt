ghost use Rattle.std.specs.Prelude.{◌≡◌};
ghost use Rattle.std.specs.Arc.{arc_value};
ghost use Rattle.lb_acl.specs.Conds.{term_holds, all_hold, some_alternative_holds, cond_holds};

use crate::{Acl, Head};
use std::marker::Model;
use std::sync::Arc;

/// A test of a condition: a named or an anonymous ACL, turned round by `!` or not. Rules that name one ACL share it.
#[derive(Debug, Drop)]
pub struct Term {
    is_negated: bool,
    acl: Arc<Acl>,
}

impl Model for Term {
    ghost use Rattle.std.specs.Arc.{arc_value};
    ghost use Rattle.lb_acl.specs.TermView.{TermView};

    ghost Value = { TermView };

    ghost view = { λ term. record {
      is_negated = term.is_negated;
      lines = arc_value term.acl;
    } };
}

impl Term {
    /// The test that the ACL holds, or with `is_negated` that it doesn't.
    pub fn new(is_negated: bool, acl: Arc<Acl>) -> Self
        ensures { result ≡ record { is_negated = is_negated; lines = arc_value acl } }
    {
        Term { is_negated, acl }
    }

    /// Whether the test holds of the request. Allocates nothing.
    pub fn holds(&self, head: &Head) -> bool
        ensures { result ≡ term_holds head.now self.now }
    {
        self.acl.holds(head) != self.is_negated
    }
}

/// The tests between two `or` of a condition. They hold where each of them does.
#[derive(Debug, Drop)]
pub struct Conjunction {
    terms: Vec<Term>,
}

impl Model for Conjunction {
    ghost use Rattle.std.specs.Prelude.{List};
    ghost use Rattle.lb_acl.specs.TermView.{TermView};

    ghost Value = { List TermView };

    ghost view = { λ conjunction. conjunction.terms.items };
}

impl Conjunction {
    /// The tests of one alternative.
    pub fn new(terms: Vec<Term>) -> Self
        ensures { result ≡ terms.items }
    {
        Conjunction { terms }
    }

    /// Whether each test holds of the request. Allocates nothing.
    pub fn holds(&self, head: &Head) -> bool
        ensures { result ≡ all_hold head.now self.now }
    {
        self.terms.iter().all(|term| term.holds(head))
    }
}

/// Which word stands before a condition.
#[derive(Clone, Copy, Debug, PartialEq, Eq)]
pub enum Polarity {
    /// `if`: the rule applies where the condition holds.
    If,
    /// `unless`: the rule applies where it doesn't.
    Unless,
}

/// A condition with the word before it: alternatives, each the tests between two `or`.
#[derive(Debug, Drop)]
pub struct Cond {
    polarity: Polarity,
    alternatives: Vec<Conjunction>,
}

impl Model for Cond {
    ghost use Rattle.lb_acl.specs.CondView.{CondView};

    ghost Value = { CondView };

    ghost view = { λ cond. record {
      polarity = cond.polarity;
      alternatives = cond.alternatives.items;
    } };
}

impl Cond {
    /// The condition of these alternatives.
    pub fn new(polarity: Polarity, alternatives: Vec<Conjunction>) -> Self
        ensures { result ≡ record { polarity = polarity; alternatives = alternatives.items } }
    {
        Cond {
            polarity,
            alternatives,
        }
    }

    /// Whether a rule under this condition applies to the request: a walk over its tests that allocates nothing and copies nothing.
    #[tactic(auto, unfolding(crate::specs::Conds::cond_holds))]
    pub fn eval(&self, head: &Head) -> bool
        ensures { result ≡ cond_holds head.now self.now }
    {
        let holds = some_holds(&self.alternatives, head);
        match self.polarity {
            Polarity::If => holds,
            Polarity::Unless => !holds,
        }
    }
}

/// Whether each test of some alternative holds.
fn some_holds(alternatives: &[Conjunction], head: &Head) -> bool
    ensures { result ≡ some_alternative_holds head.now alternatives.now }
{
    alternatives.iter().any(|terms| terms.holds(head))
}

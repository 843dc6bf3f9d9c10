ghost use Rattle.std.specs.Prelude.{◌≡◌};

use lb_acl::{AclLine, Polarity};
use lb_types::Name;
use std::marker::Model;

/// An ACL that a condition tests.
#[derive(Debug, Drop)]
pub enum UnresolvedAcl {
    /// The lines of this name in the section.
    Named(Name),
    /// The words between `{` and `}`.
    Anonymous(AclLine),
}

/// A test of a condition, turned round by `!` or not.
#[derive(Debug, Drop)]
pub struct UnresolvedTerm {
    /// Whether `!` turns the test round.
    pub is_negated: bool,
    /// The ACL that is tested.
    pub acl: UnresolvedAcl,
}

/// The tests between two `or` of a condition, at least one.
#[derive(Debug, Drop)]
pub struct Alternative {
    terms: Vec<UnresolvedTerm>,
}

impl Model for Alternative {
    ghost use Rattle.std.specs.Prelude.{List};
    ghost use Rattle.lb_config_conditions.specs.declared.unresolved.UnresolvedTerm.{UnresolvedTerm};

    ghost Value = { List UnresolvedTerm };

    ghost view = { λ alternative. alternative.terms.items };
}

impl Alternative {
    pub(crate) fn new(terms: Vec<UnresolvedTerm>) -> Self
        ensures { result ≡ terms.items }
    {
        Alternative { terms }
    }

    /// The tests.
    pub fn terms(&self) -> &[UnresolvedTerm]
        ensures { result.now ≡ self.now }
    {
        &self.terms
    }

    /// The tests, given away.
    pub fn into_terms(self) -> Vec<UnresolvedTerm>
        ensures { result.items ≡ self }
    {
        self.terms
    }
}

/// A condition that names its ACLs, with the word before it.
#[derive(Debug, Drop)]
pub struct UnresolvedCond {
    polarity: Polarity,
    alternatives: Vec<Alternative>,
}

impl Model for UnresolvedCond {
    ghost use Rattle.lb_config_conditions.specs.UnresolvedCondView.{UnresolvedCondView};

    ghost Value = { UnresolvedCondView };

    ghost view = { λ cond. record {
      polarity = cond.polarity;
      alternatives = cond.alternatives.items;
    } };
}

impl UnresolvedCond {
    pub(crate) fn new(polarity: Polarity, alternatives: Vec<Alternative>) -> Self
        ensures { result ≡ record { polarity = polarity; alternatives = alternatives.items } }
    {
        UnresolvedCond {
            polarity,
            alternatives,
        }
    }

    /// The word before the condition.
    pub fn polarity(&self) -> Polarity
        ensures { result ≡ self.now.polarity }
    {
        self.polarity
    }

    /// The alternatives, one at least.
    pub fn alternatives(&self) -> &[Alternative]
        ensures { result.now ≡ self.now.alternatives }
    {
        &self.alternatives
    }

    /// The alternatives, given away.
    pub fn into_alternatives(self) -> Vec<Alternative>
        ensures { result.items ≡ self.alternatives }
    {
        self.alternatives
    }
}

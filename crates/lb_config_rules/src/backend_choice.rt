ghost use Rattle.std.specs.Prelude.{◌≡◌};
ghost use Rattle.lb_config_rules.specs.Choices.{applies, chosen};

use lb_acl::{Cond, Head};

/// A rule `use_backend`: requests under the condition go to this backend.
#[derive(Debug, Drop)]
pub struct BackendChoice {
    /// The backend, by its place among the configuration's backends, counted from 0.
    pub backend: usize,
    /// The condition; a rule without one always applies.
    pub cond: Option<Cond>,
}

impl BackendChoice {
    /// Whether the rule applies to the request. Allocates nothing.
    pub fn applies(&self, head: &Head) -> bool
        ensures { result ≡ applies head.now self.now }
    {
        match &self.cond {
            Some(cond) => cond.eval(head),
            None => true,
        }
    }
}

/// The backend of the first rule that applies to the request. Allocates nothing.
pub fn chosen(rules: &[BackendChoice], head: &Head) -> Option<usize>
    ensures { result ≡ chosen head.now rules.now }
{
    rules
        .iter()
        .find(|rule| rule.applies(head))
        .map(|rule| rule.backend)
}

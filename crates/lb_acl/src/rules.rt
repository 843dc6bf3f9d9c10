ghost use Rattle.std.specs.Prelude.{◌≡◌, ◌≤◌, IfOk};
ghost use Rattle.lb_types.specs.declared.limits.TheConstants.{MAX_COST};
ghost use Rattle.lb_acl.specs.Rules.{designated, pin_cost};

use crate::{Cond, Head};
use lb_types::ServerId;
use std::alloc::{AllocError, Global};
use std::marker::Model;

/// A rule `use-server`: requests under the condition want this server.
#[derive(Debug, Drop)]
pub struct UseServer {
    /// The server.
    pub server: ServerId,
    /// The condition.
    pub cond: Cond,
}

/// A rule `pin-cost`: pins that requests under the condition make have this cost.
#[derive(Debug, Drop)]
pub struct PinCost {
    cost: u16,
    cond: Cond,
}

impl Model for PinCost {
    ghost use Rattle.lb_acl.specs.PinCostView.{PinCostView, IsPinCost};

    ghost Value = { PinCostView };

    ghost view = { λ rule. record {
      cost = rule.cost;
      cond = rule.cond;
    } };

    ghost invariant = { λ rule. IsPinCost rule.cost };
}

impl PinCost {
    /// The rule that gives this cost, from 1 to 1000, under the condition.
    pub fn new(cost: u16, cond: Cond) -> Self
        requires least { 1 ≤ cost }
        requires greatest { cost ≤ MAX_COST }
        ensures { result ≡ record { cost = cost; cond = cond } }
    {
        PinCost { cost, cond }
    }
}

/// The servers of the rules that apply to the request, in the rules' order. A server that two of them name stands twice.
///
/// The only error is out of memory.
pub fn designated(
    alloc: Global,
    rules: &[UseServer],
    head: &Head,
) -> Result<Vec<ServerId>, AllocError>
    ensures { IfOk result (λ servers. servers.items ≡ designated head.now rules.now) }
{
    let mut servers = Vec::new(alloc);
    for rule in rules {
        if rule.cond.eval(head) {
            servers.push(rule.server)?;
        }
    }
    Ok(servers)
}

/// The cost of a pin that the request makes: that of the first rule that applies, or 1. Allocates nothing.
pub fn pin_cost(rules: &[PinCost], head: &Head) -> u16
    ensures exact { result ≡ pin_cost head.now rules.now }
    ensures least { 1 ≤ result }
    ensures greatest { result ≤ MAX_COST }
{
    for rule in rules {
        if rule.cond.eval(head) {
            return rule.cost;
        }
    }
    1
}

ghost use Rattle.std.specs.Prelude.{◌≡◌, ◌≤◌};
ghost use Rattle.lb_config_arguments.specs.Faults.{Gives};
ghost use Rattle.lb_config_conditions.specs.AclLines.{declaration_at};
ghost use Rattle.lb_config_conditions.specs.RuleLines.{backend_rule_at, server_rule_at, cost_rule_at};

use crate::UnresolvedCond;
use crate::acl_draft::read_acl;
use crate::cond_lines::{read_optional_cond, read_rule_cond};
use lb_acl::AclLine;
use lb_config_arguments::{LineError, Words, read_number};
use lb_types::{MAX_COST, Name};
use std::marker::Model;

/// A line `acl`.
#[derive(Debug, Drop)]
pub struct AclDeclaration {
    /// The ACL that gets the line.
    pub name: Name,
    /// The line.
    pub line: AclLine,
}

/// A line `use_backend`.
#[derive(Debug, Drop)]
pub struct BackendRule {
    /// The backend that requests under the condition go to.
    pub backend: Name,
    /// The condition, or none where the rule always applies.
    pub cond: Option<UnresolvedCond>,
}

/// A line `use-server`.
#[derive(Debug, Drop)]
pub struct ServerRule {
    /// The server that requests under the condition want.
    pub server: Name,
    /// The condition.
    pub cond: UnresolvedCond,
}

/// A line `pin-cost`.
#[derive(Debug, Drop)]
pub struct CostRule {
    cost: u16,
    cond: UnresolvedCond,
}

impl Model for CostRule {
    ghost use Rattle.lb_config_conditions.specs.CostRuleView.{CostRuleView, IsCost};

    ghost Value = { CostRuleView };

    ghost view = { λ rule. record {
      cost = rule.cost;
      cond = rule.cond;
    } };

    ghost invariant = { λ rule. IsCost rule.cost };
}

impl CostRule {
    /// The cost of a pin that a request under the condition makes, 1 to 1000.
    pub fn cost(&self) -> u16
        ensures exact { result ≡ self.now.cost }
        ensures least { 1 ≤ result }
        ensures greatest { result ≤ MAX_COST }
    {
        self.cost
    }

    /// The condition.
    pub fn cond(&self) -> &UnresolvedCond
        ensures { result.now ≡ self.now.cond }
    {
        &self.cond
    }

    /// The condition, given away.
    pub fn into_cond(self) -> UnresolvedCond
        ensures { result ≡ self.cond }
    {
        self.cond
    }
}

/// The words after `use_backend`: a name, and a condition or nothing.
#[tactic(auto, unfolding(crate::specs::RuleLines::backend_rule_at))]
pub fn read_backend_rule(words: &mut Words) -> Result<BackendRule, LineError>
    ensures { Gives (λ rule. rule) result (backend_rule_at words.old) }
{
    let backend = words.next_name()?;
    let cond = read_optional_cond(words)?;
    Ok(BackendRule { backend, cond })
}

/// The words after `use-server`: a name and a condition.
#[tactic(auto, unfolding(crate::specs::RuleLines::server_rule_at))]
pub fn read_server_rule(words: &mut Words) -> Result<ServerRule, LineError>
    ensures { Gives (λ rule. rule) result (server_rule_at words.old) }
{
    let server = words.next_name()?;
    let cond = read_rule_cond(words)?;
    Ok(ServerRule { server, cond })
}

/// The words after `pin-cost`: a cost and a condition.
#[tactic(auto, unfolding(crate::specs::RuleLines::cost_rule_at))]
pub fn read_cost_rule(words: &mut Words) -> Result<CostRule, LineError>
    ensures { Gives (λ rule. rule) result (cost_rule_at words.old) }
{
    let word = words.next_word()?;
    let cost = read_number(1, MAX_COST, word)?;
    let cond = read_rule_cond(words)?;
    Ok(CostRule {
        cost: cost as u16,
        cond,
    })
}

/// The words after `acl`.
#[tactic(auto, unfolding(crate::specs::AclLines::declaration_at))]
pub fn read_declaration(words: &mut Words) -> Result<AclDeclaration, LineError>
    ensures { Gives (λ declaration. declaration) result (declaration_at words.old) }
{
    let name = words.next_name()?;
    let line = read_acl(words)?;
    Ok(AclDeclaration { name, line })
}

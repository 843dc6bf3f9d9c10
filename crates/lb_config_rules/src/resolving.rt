ghost use Rattle.std.specs.Prelude.{◌≡◌, ◌++◌, IfOk, OnOk, map};
ghost use Rattle.std.specs.List.{filter_map};
ghost use Rattle.std.specs.Option.{option_map, option_to_list};
ghost use Rattle.lb_config_rules.specs.Groups.{cond_by};
ghost use Rattle.lb_config_rules.specs.Resolved.{choice_by, use_server_by, pin_cost_by};
ghost use Rattle.lb_config_rules.specs.Rules.{place_of, server_place};

use crate::BackendChoice;
use crate::conds::resolved;
use crate::named_acls::NamedAcls;
use lb_acl::{Cond, PinCost, UseServer};
use lb_config_conditions::{BackendRule, CostRule, ServerRule, UnresolvedCond};
use lb_types::{MAX_SERVERS, Name, ServerId};
use std::alloc::{AllocError, Global};

/// The rules `use_backend` with the places of their backends.
pub(crate) fn choices(
    alloc: Global,
    backends: &[Name],
    acls: &NamedAcls,
    rules: Vec<BackendRule>,
) -> Result<Vec<BackendChoice>, AllocError>
    ensures { IfOk result (λ choices. choices.items ≡ filter_map (choice_by backends.now acls.now) rules.items) }
{
    let mut choices = Vec::new(alloc);
    for rule in rules {
        push_choice(alloc, backends, acls, rule, &mut choices)?;
    }
    Ok(choices)
}

fn push_choice(
    alloc: Global,
    backends: &[Name],
    acls: &NamedAcls,
    rule: BackendRule,
    choices: &mut Vec<BackendChoice>,
) -> Result<(), AllocError>
    ensures { OnOk result (choices.new.items ≡ choices.old.items ++ option_to_list (choice_by backends.now acls.now rule)) }
{
    if let Some(backend) = place_of(backends, &rule.backend) {
        let cond = optional_cond(alloc, acls, rule.cond)?;
        choices.push(BackendChoice { backend, cond })?;
    }
    Ok(())
}

fn optional_cond(
    alloc: Global,
    acls: &NamedAcls,
    cond: Option<UnresolvedCond>,
) -> Result<Option<Cond>, AllocError>
    ensures { IfOk result (λ resolved. resolved ≡ option_map (cond_by acls.now) cond) }
{
    match cond {
        Some(cond) => Ok(Some(resolved(alloc, acls, cond)?)),
        None => Ok(None),
    }
}

/// The rules `use-server` with the places of their servers.
pub(crate) fn use_servers(
    alloc: Global,
    servers: &[Name],
    acls: &NamedAcls,
    rules: Vec<ServerRule>,
) -> Result<Vec<UseServer>, AllocError>
    ensures { IfOk result (λ rules_of. rules_of.items ≡ filter_map (use_server_by servers.now acls.now) rules.items) }
{
    let mut use_servers = Vec::new(alloc);
    for rule in rules {
        push_use_server(alloc, servers, acls, rule, &mut use_servers)?;
    }
    Ok(use_servers)
}

fn push_use_server(
    alloc: Global,
    servers: &[Name],
    acls: &NamedAcls,
    rule: ServerRule,
    use_servers: &mut Vec<UseServer>,
) -> Result<(), AllocError>
    ensures { OnOk result (use_servers.new.items ≡ use_servers.old.items ++ option_to_list (use_server_by servers.now acls.now rule)) }
{
    let ServerRule { server, cond } = rule;
    if let Some(server) = server_place(servers, &server) {
        let cond = resolved(alloc, acls, cond)?;
        use_servers.push(UseServer { server, cond })?;
    }
    Ok(())
}

/// The server of the name. The configuration has at most 128.
fn server_place(servers: &[Name], name: &Name) -> Option<ServerId>
    ensures { result ≡ server_place servers.now name.now }
{
    match place_of(servers, name) {
        Some(place) if place < MAX_SERVERS => Some(ServerId::new(place as u8)),
        _ => None,
    }
}

/// The rules `pin-cost`.
pub(crate) fn pin_costs(
    alloc: Global,
    acls: &NamedAcls,
    rules: Vec<CostRule>,
) -> Result<Vec<PinCost>, AllocError>
    ensures { IfOk result (λ costs. costs.items ≡ map (pin_cost_by acls.now) rules.items) }
{
    let mut costs = Vec::new(alloc);
    for rule in rules {
        let cost = pin_cost(alloc, acls, rule)?;
        costs.push(cost)?;
    }
    Ok(costs)
}

fn pin_cost(alloc: Global, acls: &NamedAcls, rule: CostRule) -> Result<PinCost, AllocError>
    ensures { IfOk result (λ cost. cost ≡ pin_cost_by acls.now rule) }
{
    let cost = rule.cost();
    Ok(PinCost::new(cost, resolved(alloc, acls, rule.into_cond())?))
}

/// The place of the name among the names.
pub fn place_of(names: &[Name], name: &Name) -> Option<usize>
    ensures { result ≡ place_of names.now name.now }
{
    names
        .iter()
        .position(|other| other.as_bytes() == name.as_bytes())
}

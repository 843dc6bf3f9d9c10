ghost use Rattle.std.specs.Prelude.{◌≡◌, ◌≤◌, IfOk, sum_by};
ghost use Rattle.dual_cert_plan.specs.Plans.{servers_of, group_of, groups_of};
ghost use Rattle.std.specs.Cmp.{partial_equiv_from_equiv};
ghost use Rattle.std.specs.Cmp.Rules.{comparing};
ghost use Rattle.std.proofs.Common.{rules};
ghost use Rattle.lb_types.specs.declared.limits.TheConstants.{MAX_PINS};
ghost use Rattle.dual_cert_plan.specs.Equality.{equal_plans};

use crate::{PricedServer, Server, Sheet};
use lb_types_pins::{Group, Row};
use std::alloc::{AllocError, Global};
use std::marker::Model;

/// Moves of pins, with the prices of the servers' places that prove them best.
///
/// A plan has at most 128 servers with distinct names, rows in strictly rising order that speak of these servers alone,
/// and at most 16777216 pins.
#[derive(Debug, Drop)]
pub struct Plan {
    version: u64,
    servers: Vec<PricedServer>,
    rows: Vec<Row>,
}

impl Model for Plan {
    ghost use Rattle.dual_cert_plan.specs.Plans.{PlanParts, IsPlan};

    ghost Value = { PlanParts };

    ghost view = { λ p. record { version = p.version; servers = p.servers.items; rows = p.rows.items } };

    ghost invariant = { λ p. IsPlan (record { version = p.version; servers = p.servers.items; rows = p.rows.items }) };
}

impl Plan {
    ghost use Rattle.std.specs.Prelude.{◌≡◌, IfOk};
    ghost use Rattle.dual_cert_plan.specs.Plans.{PlanParts, IsPlan, plan_of_parts, own_sheet, pins_in_groups, pins_in_rows};
    ghost use Rattle.lb_types_pins.specs.declared.kind.PinKind.{PinKind};

    /// The plan of these parts, which allocates nothing. `version` is that of the sheet that was planned, at most 2^63.
    pub fn new(version: u64, servers: Vec<PricedServer>, rows: Vec<Row>) -> Self
        requires { IsPlan (plan_of_parts version servers.items rows.items) }
        ensures { result ≡ plan_of_parts version servers.items rows.items }
    {
        Plan {
            version,
            servers,
            rows,
        }
    }

    /// The version of the table that the plan is made for.
    pub fn version(&self) -> u64
        ensures { result ≡ self.now.version }
    {
        self.version
    }

    /// The servers in the configuration's order.
    pub fn servers(&self) -> &[PricedServer]
        ensures exact { result.now ≡ self.now.servers }
        ensures lawful { IsPlan self.now }
    {
        &self.servers
    }

    /// The rows in strictly rising order.
    pub fn rows(&self) -> &[Row]
        ensures exact { result.now ≡ self.now.rows }
        ensures lawful { IsPlan self.now }
    {
        &self.rows
    }

    /// The sheet that the plan speaks of: its version, its servers without their prices, and its rows' pins by kind.
    /// One walk over servers and rows; memory for as many groups as there are kinds in the rows.
    pub fn sheet(&self, alloc: Global) -> Result<Sheet, AllocError>
        ensures exact { IfOk result (λ sheet. sheet ≡ own_sheet self.now) }
        ensures counts { IfOk result (λ sheet. (kind : PinKind)
            → pins_in_groups kind sheet.groups ≡ pins_in_rows kind self.now.rows) }
    {
        let servers = servers_of(alloc, &self.servers)?;
        let groups = groups_of(alloc, &self.rows)?;
        Ok(Sheet::new(self.version, servers, groups))
    }
}

impl PartialEq for Plan {
    ghost eq = { equal_plans };

    ghost laws = { partial_equiv_from_equiv (Prim.search (comparing, rules) depth 12) };

    fn eq(&self, other: &Plan) -> bool {
        self.version == other.version && self.servers == other.servers && self.rows == other.rows
    }
}

impl Eq for Plan {
    ghost laws = { Prim.search (comparing, rules) depth 12 };
}

fn servers_of(alloc: Global, servers: &[PricedServer]) -> Result<Vec<Server>, AllocError>
    ensures { IfOk result (λ own. own.items ≡ servers_of servers.now) }
{
    servers.iter().map(|priced| priced.server).collect(alloc)
}

fn groups_of(alloc: Global, rows: &[Row]) -> Result<Vec<Group>, AllocError>
    requires { sum_by (λ r. r.count) rows.now ≤ MAX_PINS }
    ensures { IfOk result (λ groups. groups.items ≡ groups_of rows.now) }
{
    let mut groups = Vec::new(alloc);
    let Some((first, rest)) = rows.split_first() else {
        return Ok(groups);
    };
    let mut group = group_of(first);
    for row in rest {
        if group.kind == row.kind {
            group.count += row.count;
        } else {
            groups.push(group)?;
            group = group_of(row);
        }
    }
    groups.push(group)?;
    Ok(groups)
}

fn group_of(row: &Row) -> Group
    ensures { result ≡ group_of row.now }
{
    Group {
        kind: row.kind,
        count: row.count,
    }
}

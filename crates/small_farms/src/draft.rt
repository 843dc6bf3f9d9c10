ghost use Rattle.std.specs.Prelude.{◌≡◌, ◌^◌, ◌<◌, true, IsTrue, is_some, if◌then◌else◌};
ghost use Rattle.std.specs.Option.{ForSome};
ghost use Rattle.lb_types.specs.Names.{is_name};
ghost use Rattle.lb_types.specs.Servers.{with_server};
ghost use Rattle.small_farms.specs.Drafts.{MayCost, IsNew, IsWithin, MayStand, comes_next};

use dual_cert_plan::{Plan, PricedServer, Server};
use lb_types::{MAX_COST, MAX_PINS, MAX_SERVERS, Name, Place, ServerId, ServerSet};
use lb_types_pins::{PinKind, Row};
use std::alloc::{AllocError, Global};
use std::marker::Model;

/// A plan that is made server by server and row by row. What a plan may not have is not put in.
#[derive(Debug, Drop)]
pub(crate) struct Draft {
    servers: Vec<PricedServer>,
    rows: Vec<Row>,
    /// The pins of the rows.
    pins: u32,
    /// The servers that aren't off.
    usable: ServerSet,
}

impl Model for Draft {
    ghost use Rattle.dual_cert_plan.specs.Plans.{PlanParts, plan_of_parts};
    ghost use Rattle.small_farms.specs.Drafts.{IsDraft};

    ghost Value = { PlanParts };

    ghost view = { λ d. plan_of_parts 0 d.servers.items d.rows.items };

    ghost invariant = { λ d. IsDraft d.servers.items d.rows.items d.pins d.usable };
}

impl Draft {
    ghost use Rattle.std.specs.Prelude.{◌≡◌};

    pub(crate) fn new(alloc: Global) -> Self {
        Draft {
            servers: Vec::new(alloc),
            rows: Vec::new(alloc),
            pins: 0,
            usable: ServerSet::empty(),
        }
    }

    /// Appends a server. False where it may not stand there.
    pub(crate) fn add_server(&mut self, server: Server, price: u64) -> Result<bool, AllocError> {
        let at = self.servers.len();
        if at >= MAX_SERVERS || !self.rows.is_empty() || !is_new(&self.servers, server.name) {
            return Ok(false);
        }
        if !may_cost(&server, price) {
            return Ok(false);
        }
        self.servers.push(PricedServer { server, price })?;
        self.usable = or_usable(self.usable, &server, at);
        Ok(true)
    }

    /// Appends a row. False where it may not stand there.
    pub(crate) fn add_row(&mut self, row: Row) -> Result<bool, AllocError> {
        if row.count == 0 || u64::from(row.count) > MAX_PINS - u64::from(self.pins) {
            return Ok(false);
        }
        if !may_stand(self.servers.len(), self.usable, &row.kind) {
            return Ok(false);
        }
        if !is_below(self.servers.len(), row.new_place) || !comes_next(&self.rows, &row) {
            return Ok(false);
        }
        self.rows.push(row)?;
        self.pins += row.count;
        Ok(true)
    }

    /// The plan, of version 0.
    pub(crate) fn into_plan(self) -> Plan
        ensures { result ≡ self }
    {
        Plan::new(0, self.servers, self.rows)
    }
}

/// Whether no server has the name.
fn is_new(servers: &[PricedServer], name: Name) -> bool
    ensures named { is_name name ≡ true }
    ensures new { IsTrue result → IsNew servers.now name }
{
    let bytes = name.as_bytes();
    servers
        .iter()
        .all(|server| server.server.name.as_bytes() != bytes)
}

/// Whether the server may have the price.
fn may_cost(server: &Server, price: u64) -> bool
    ensures { IsTrue result → MayCost server.now price }
{
    price < 1 << 40 && (price == 0 || server.capacity.is_some())
}

/// The usable servers with the one of this number, where it is usable.
fn or_usable(usable: ServerSet, server: &Server, number: usize) -> ServerSet
    requires { number < MAX_SERVERS }
    ensures exact { result ≡ (if is_some server.now.capacity then with_server usable number else usable) }
    ensures capacity { ForSome server.now.capacity (λ capacity. capacity < 2 ^ 32) }
{
    match server.capacity {
        Some(_capacity) => usable.with(ServerId::new(number as u8)),
        None => usable,
    }
}

/// Whether pins of this kind may be in a plan of so many servers, of which these are usable.
fn may_stand(servers: usize, usable: ServerSet, kind: &PinKind) -> bool
    ensures { IsTrue result → MayStand servers usable kind.now }
{
    is_below(servers, kind.place)
        && is_within(kind.permitted, usable)
        && kind.cost >= 1
        && u64::from(kind.cost) <= MAX_COST
}

fn is_within(set: ServerSet, others: ServerSet) -> bool
    ensures { IsTrue result → IsWithin set others }
{
    set.meet(others) == set
}

/// Whether the place is none, or one of the first servers.
fn is_below(servers: usize, place: Place) -> bool
    ensures { IsTrue result → ForSome place (λ server. server < servers) }
{
    match place {
        Some(server) => server.index() < servers,
        None => true,
    }
}

/// Whether the row comes strictly after the last of the rows.
fn comes_next(rows: &[Row], row: &Row) -> bool
    ensures { result ≡ comes_next rows.now row.now }
{
    rows.last().is_none_or(|last| last.is_before(row))
}

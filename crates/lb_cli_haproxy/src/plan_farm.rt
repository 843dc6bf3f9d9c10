ghost use Rattle.std.specs.Prelude.{◌≡◌, ◌≤◌, ℕ, length, map, IfOk};
ghost use Rattle.lb_types.specs.declared.limits.TheConstants.{MAX_SERVERS};
ghost use Rattle.lb_types.specs.Servers.{has};
ghost use Rattle.lb_cli_haproxy.specs.PlanFarms.{farm_server, farm_servers, is_on, is_on_at};

use crate::sets::with_if;
use dual_cert_plan::{Plan, PricedServer};
use lb_types::{ServerId, ServerSet};
use pin_set::ViewServer;
use std::alloc::{AllocError, Global};

/// The plan's servers, in its order. One that is off has no room.
pub(crate) fn farm_servers(alloc: Global, plan: &Plan) -> Result<Vec<ViewServer>, AllocError>
    ensures exact { IfOk result (λ farm. farm.items ≡ farm_servers plan.now) }
    ensures few { IfOk result (λ farm. length farm.items ≤ MAX_SERVERS) }
{
    servers_from(alloc, plan.servers())
}

fn servers_from(alloc: Global, servers: &[PricedServer]) -> Result<Vec<ViewServer>, AllocError>
    ensures { IfOk result (λ farm. farm.items ≡ map farm_server servers.now) }
{
    servers
        .iter()
        .map(|priced| farm_server(priced))
        .collect(alloc)
}

fn farm_server(priced: &PricedServer) -> ViewServer
    ensures { result ≡ farm_server priced.now }
{
    ViewServer {
        name: priced.server.name,
        capacity: priced.server.capacity.unwrap_or(0),
    }
}

/// The plan's servers that aren't off.
pub(crate) fn usable_servers(plan: &Plan) -> ServerSet
    ensures { (at : ℕ) → has result at ≡ is_on_at plan.now.servers at }
{
    usable_among(plan.servers())
}

fn usable_among(servers: &[PricedServer]) -> ServerSet
    requires { length servers.now ≤ MAX_SERVERS }
    ensures { (at : ℕ) → has result at ≡ is_on_at servers.now at }
{
    let mut usable = ServerSet::empty();
    for i in 0..servers.len() {
        usable = with_if(usable, ServerId::new(i as u8), is_on(&servers[i]));
    }
    usable
}

fn is_on(priced: &PricedServer) -> bool
    ensures { result ≡ is_on priced.now }
{
    priced.server.capacity.is_some()
}

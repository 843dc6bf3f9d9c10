ghost use Rattle.std.specs.Prelude.{◌≡◌, ◌+◌, ◌^◌, ◌<◌, length, IfOk};
ghost use Rattle.flow_planner_net.specs.States.{at};
ghost use Rattle.flow_planner_law.specs.Accepted.{capacities_of, unplaced_cost_of};
ghost use Rattle.flow_planner.specs.Plannings.{priced_server, priced_servers};

use dual_cert_plan::{PricedServer, Server};
use lb_types_pins::Group;
use std::alloc::{AllocError, Global};

/// How many pins each option has room for: the first, to have no server, has room for more than there can be.
pub(crate) fn capacities_of(alloc: Global, servers: &[Server]) -> Result<Vec<u32>, AllocError>
    ensures { IfOk result (λ capacities. capacities.items ≡ capacities_of servers.now) }
{
    let mut capacities = Vec::with_capacity(alloc, servers.len() + 1)?;
    capacities.push(u32::MAX)?;
    for server in servers {
        capacities.push(server.capacity.unwrap_or(0))?;
    }
    Ok(capacities)
}

/// What it costs to leave a pin without a server: more than to move all pins.
pub(crate) fn unplaced_cost(groups: &[Group]) -> u64
    requires { unplaced_cost_of groups.now < 2 ^ 64 }
    ensures { result ≡ unplaced_cost_of groups.now }
{
    let all_moves: u64 = groups
        .iter()
        .map(|group| u64::from(group.count) * u64::from(group.kind.cost))
        .sum();
    1 + all_moves
}

/// The servers with the prices of their options.
pub(crate) fn priced_servers(
    alloc: Global,
    servers: &[Server],
    prices: &[u64],
) -> Result<Vec<PricedServer>, AllocError>
    requires { length prices.now ≡ length servers.now + 1 }
    ensures { IfOk result (λ priced. priced.items ≡ priced_servers (at prices.now) servers.now) }
{
    let mut priced = Vec::with_capacity(alloc, servers.len())?;
    for (i, server) in servers.iter().enumerate() {
        priced.push(priced_server(prices, i, server))?;
    }
    Ok(priced)
}

/// The server with the price of its option. One that is off has none.
fn priced_server(prices: &[u64], index: usize, server: &Server) -> PricedServer
    requires { index + 1 < length prices.now }
    ensures { result ≡ priced_server (at prices.now) (index, server.now) }
{
    let price = if server.capacity.is_some() {
        prices[index + 1]
    } else {
        0
    };
    PricedServer {
        server: *server,
        price,
    }
}

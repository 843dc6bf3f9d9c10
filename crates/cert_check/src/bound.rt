ghost use Rattle.std.specs.Prelude.{◌≡◌, ◌+◌, ◌^◌, ◌<◌, ◌≤◌, ◌↔◌, length, IsTrue};
ghost use Rattle.pin_set.specs.Costs.{option_cost, least, held};
ghost use Rattle.pin_set.specs.Rows.{rows_unplaced_cost, rows_cost, rows_least};
ghost use Rattle.dual_cert_plan.specs.Plans.{servers_of};
ghost use Rattle.cert_check.specs.Ranges.{AreFew, ArePriced};
ghost use Rattle.cert_check.specs.Verdict.{room, price_at};

use crate::lawful::room;
use crate::score::move_cost;
use dual_cert_plan::PricedServer;
use lb_types::{Place, ServerId};
use lb_types_pins::{PinKind, Row};

/// Whether the rows' cost meets the bound that the servers' prices give. Costs a look at each server for each row.
pub(crate) fn is_shown(servers: &[PricedServer], rows: &[Row]) -> bool
    requires few { AreFew rows.now }
    requires priced { ArePriced servers.now }
    ensures { let u = rows_unplaced_cost rows.now in
        let worth = held (length servers.now) (room (servers_of servers.now)) (price_at servers.now) in
        IsTrue result ↔ (rows_cost u rows.now + worth
        ≡ rows_least u (price_at servers.now) (length servers.now) rows.now) }
{
    let unplaced_cost = unplaced_cost(rows);
    let cost = u128::from(cost(unplaced_cost, rows));
    let least = u128::from(least_total(unplaced_cost, servers, rows));
    cost + worth(servers) == least
}

/// What it costs to leave a pin without a server: more than to move all pins.
fn unplaced_cost(rows: &[Row]) -> u64
    requires { rows_unplaced_cost rows.now < 2 ^ 64 }
    ensures { result ≡ rows_unplaced_cost rows.now }
{
    let all_moves: u64 = rows
        .iter()
        .map(|row| u64::from(row.count) * u64::from(row.kind.cost))
        .sum();
    1 + all_moves
}

/// The costs of all the rows' options.
fn cost(unplaced_cost: u64, rows: &[Row]) -> u64
    requires high { unplaced_cost < 2 ^ 35 }
    requires fits { rows_cost unplaced_cost rows.now < 2 ^ 64 }
    ensures { result ≡ rows_cost unplaced_cost rows.now }
{
    let mut total = 0;
    for row in rows {
        total += u64::from(row.count) * option_cost(unplaced_cost, &row.kind, row.new_place);
    }
    total
}

/// The least sums of cost and price of all the rows' pins.
fn least_total(unplaced_cost: u64, servers: &[PricedServer], rows: &[Row]) -> u64
    requires high { unplaced_cost < 2 ^ 35 }
    requires priced { ArePriced servers.now }
    requires fits { rows_least unplaced_cost (price_at servers.now) (length servers.now) rows.now < 2 ^ 64 }
    ensures { result ≡ rows_least unplaced_cost (price_at servers.now) (length servers.now) rows.now }
{
    let mut total = 0;
    for row in rows {
        total += u64::from(row.count) * least(unplaced_cost, servers, &row.kind);
    }
    total
}

/// The least of cost and price over the options of a pin of this kind.
fn least(unplaced_cost: u64, servers: &[PricedServer], kind: &PinKind) -> u64
    requires high { unplaced_cost < 2 ^ 35 }
    requires priced { ArePriced servers.now }
    ensures { result ≡ least unplaced_cost (price_at servers.now) (length servers.now) kind.now }
{
    let mut least = option_cost(unplaced_cost, kind, None);
    for (i, server) in servers.iter().enumerate() {
        let id = ServerId::new(i as u8);
        if kind.permitted.has(id) {
            least = least.min(option_cost(unplaced_cost, kind, Some(id)) + server.price);
        }
    }
    least
}

fn option_cost(unplaced_cost: u64, kind: &PinKind, to: Place) -> u64
    requires { unplaced_cost < 2 ^ 35 }
    ensures exact { result ≡ option_cost unplaced_cost kind.now to }
    ensures fits { result < 2 ^ 36 }
{
    let cost = u64::from(move_cost(kind, to));
    if to.is_none() {
        unplaced_cost + cost
    } else {
        cost
    }
}

/// What the places of all servers are worth at the prices.
fn worth(servers: &[PricedServer]) -> u128
    requires { ArePriced servers.now }
    ensures exact { result
        ≡ held (length servers.now) (room (servers_of servers.now)) (price_at servers.now) }
    ensures fits { result < 2 ^ 80 }
{
    let mut worth = 0;
    for server in servers {
        worth += u128::from(room(server)) * u128::from(server.price);
    }
    worth
}

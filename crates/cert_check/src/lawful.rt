ghost use Rattle.std.specs.Prelude.{◌≡◌, ℕ, ◌<◌, ◌≤◌, ◌↔◌, All, IsTrue, slice_index, unwrap_or};
ghost use Rattle.pin_set.specs.Assignments.{may_go};
ghost use Rattle.pin_set.specs.Rows.{rows_load, RowMayGo};
ghost use Rattle.dual_cert_plan.specs.Plans.{servers_of};
ghost use Rattle.dual_cert_plan.specs.Sheets.{IsListed};
ghost use Rattle.cert_check.specs.Ranges.{AreFew, ArePriced};
ghost use Rattle.cert_check.specs.Verdict.{room};

use dual_cert_plan::PricedServer;
use lb_types::MAX_SERVERS;
use lb_types_pins::Row;

/// Whether each pin goes to no server, or to one that it may be at.
pub(crate) fn is_permitted(rows: &[Row]) -> bool
    ensures { IsTrue result ↔ All RowMayGo rows.now }
{
    rows.iter().all(may_go)
}

fn may_go(row: &Row) -> bool
    ensures { result ≡ may_go row.now.kind row.now.new_place }
{
    row.new_place
        .is_none_or(|server| row.kind.permitted.has(server))
}

/// Whether no server gets more pins than it has room for. One walk over the rows, and one over the servers.
pub(crate) fn is_within_capacity(servers: &[PricedServer], rows: &[Row]) -> bool
    requires few { AreFew rows.now }
    requires priced { ArePriced servers.now }
    requires listed { All (λ r. IsListed (servers_of servers.now) r.new_place) rows.now }
    ensures { IsTrue result
        ↔ ((s : ℕ) → rows_load rows.now s ≤ room (servers_of servers.now) s) }
{
    let loads = loads(rows);
    for (i, server) in servers.iter().enumerate() {
        if room(server) < loads[i] {
            return false;
        }
    }
    true
}

/// How many pins each server gets.
fn loads(rows: &[Row]) -> [u32; MAX_SERVERS]
    requires { AreFew rows.now }
    ensures { (s : ℕ) → s < MAX_SERVERS → slice_index result s ≡ rows_load rows.now s }
{
    let mut loads = [0; MAX_SERVERS];
    for row in rows {
        if let Some(server) = row.new_place {
            loads[server.index()] += row.count;
        }
    }
    loads
}

/// How many pins may be at the server: none where it is off.
pub(crate) fn room(server: &PricedServer) -> u32
    ensures { result ≡ unwrap_or server.now.server.capacity 0 }
{
    server.server.capacity.unwrap_or(0)
}

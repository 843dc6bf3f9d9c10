ghost use Rattle.std.specs.Prelude.{◌≡◌, ◌↔◌, IsTrue, slice_get};
ghost use Rattle.dual_cert_plan.specs.Plans.{servers_of, group_of, groups_of};
ghost use Rattle.cert_check.specs.Ranges.{AreFew};
ghost use Rattle.cert_check.specs.Verdict.{IsMadeFor};

use dual_cert_plan::{Plan, PricedServer, Server, Sheet};
use lb_types_pins::{Group, Row};

/// Whether the plan has the sheet's servers and the sheet's pins by kind. One walk over the rows, which allocates nothing.
pub(crate) fn is_made_for(sheet: &Sheet, plan: &Plan) -> bool
    ensures { IsTrue result ↔ IsMadeFor sheet.now plan.now }
{
    are_same_servers(plan.servers(), sheet.servers()) && are_groups_of(plan.rows(), sheet.groups())
}

/// Whether the servers, without their prices, are these.
fn are_same_servers(priced: &[PricedServer], servers: &[Server]) -> bool
    ensures { IsTrue result ↔ (servers_of priced.now ≡ servers.now) }
{
    if priced.len() != servers.len() {
        return false;
    }
    for (i, server) in servers.iter().enumerate() {
        if priced[i].server != *server {
            return false;
        }
    }
    true
}

/// Whether the rows' pins by kind are these groups.
fn are_groups_of(rows: &[Row], groups: &[Group]) -> bool
    requires { AreFew rows.now }
    ensures { IsTrue result ↔ (groups_of rows.now ≡ groups.now) }
{
    let Some((first, rest)) = rows.split_first() else {
        return groups.is_empty();
    };
    let mut group = group_of(first);
    let mut at = 0;
    for row in rest {
        if group.kind == row.kind {
            group.count += row.count;
        } else {
            if !stands_at(&group, groups, at) {
                return false;
            }
            group = group_of(row);
            at += 1;
        }
    }
    stands_at(&group, groups, at) && at + 1 == groups.len()
}

/// Whether the group is the one at this index.
fn stands_at(group: &Group, groups: &[Group], at: usize) -> bool
    ensures { IsTrue result ↔ (slice_get groups.now at ≡ Some group.now) }
{
    groups.get(at) == Some(group)
}

fn group_of(row: &Row) -> Group
    ensures { result ≡ group_of row.now }
{
    Group {
        kind: row.kind,
        count: row.count,
    }
}

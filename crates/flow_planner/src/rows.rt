ghost use Rattle.std.specs.Prelude.{◌≡◌, ◌++◌, ◌*◌, ◌<◌, length, IfOk, OnOk};
ghost use Rattle.flow_planner_net.specs.declared.network.TheConstants.{MOST_OPTIONS};
ghost use Rattle.flow_planner_net.specs.Networks.{IsNetwork, options, size, place_of};
ghost use Rattle.flow_planner_net.specs.States.{used_of};
ghost use Rattle.flow_planner_net.specs.RowLists.{group_rows, rows_of};

use flow_planner_net::Network;
use lb_types::{Place, ServerId};
use lb_types_pins::{Group, Row};
use std::alloc::{AllocError, Global};

/// The rows that say where the pins of a network stand. `groups` are the network's, and `counts` has the pins by option and
/// group. One walk over `counts`; memory for as many rows as it has numbers above 0.
pub(crate) fn write_rows(
    alloc: Global,
    network: &Network,
    groups: &[Group],
    counts: &[u32],
) -> Result<Vec<Row>, AllocError>
    requires groups { groups.now ≡ network.now.groups }
    requires table { length counts.now ≡ options network.now * size network.now }
    ensures { IfOk result (λ rows. rows.items ≡ rows_of network.now (used_of (size network.now) counts.now)) }
{
    let mut rows = Vec::new(alloc);
    for group in 0..network.size() {
        add_rows(&mut rows, network, groups, counts, group)?;
    }
    Ok(rows)
}

/// Adds the rows of one group.
fn add_rows(
    rows: &mut Vec<Row>,
    network: &Network,
    groups: &[Group],
    counts: &[u32],
    group: usize,
) -> Result<(), AllocError>
    requires group { group < size network.now }
    requires groups { groups.now ≡ network.now.groups }
    requires table { length counts.now ≡ options network.now * size network.now }
    ensures { OnOk result (rows.new.items
        ≡ rows.old.items ++ group_rows network.now (used_of (size network.now) counts.now) group (options network.now)) }
{
    let width = network.size();
    for option in 0..network.options() {
        let pins = counts[option * width + group];
        if pins > 0 {
            rows.push(Row {
                kind: groups[group].kind,
                new_place: place_of(option),
                count: pins,
            })?;
        }
    }
    Ok(())
}

/// The place that the option stands for.
pub(crate) fn place_of(option: usize) -> Place
    requires { option < MOST_OPTIONS }
    ensures { result ≡ place_of option }
{
    if option == 0 {
        return None;
    }
    Some(ServerId::new((option - 1) as u8))
}

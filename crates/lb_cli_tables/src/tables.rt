ghost use Rattle.std.specs.Prelude.{◌≡◌, ◌^◌, ◌<◌, ◌≤◌, ◌++◌, ◌∷◌, [], length, IfOk, OnOk};
ghost use Rattle.std.specs.Fmt.{decimal};
ghost use Rattle.std.specs.List.{flat_map};
ghost use Rattle.lb_types.specs.declared.limits.TheConstants.{MAX_SERVERS};
ghost use Rattle.lb_cli_tables.specs.Tables.{move_line, moves_from, pins_at, pins_between, pins_to, places, tables_text};
ghost use Rattle.lb_cli_tables.specs.Tables.{place_columns, place_line, place_name, usage_columns};

use dual_cert_plan::{Plan, PricedServer};
use lb_types::{Place, ServerId};
use lb_types_pins::Row;
use std::alloc::{AllocError, Global};

/// The tables of a plan: a line for each two places between which pins move, with how many; then one for each place with its pins
/// before and after, its capacity and the price of a place there, in moved pins. Columns are separated by tabs.
///
/// It costs a walk over the plan's rows for each two places, so (S + 1)^2 walks for S servers. The only error is out of memory for
/// the text.
#[tactic(auto, unfolding(crate::specs::Tables::tables_text))]
pub fn tables_text(alloc: Global, plan: &Plan) -> Result<Vec<u8>, AllocError>
    ensures { IfOk result (λ text. text.items ≡ tables_text plan.now) }
{
    let places = places(alloc, plan.servers())?;
    let mut text = Vec::from_slice(alloc, b"from\tto\tpins\n")?;
    push_moves(alloc, &mut text, plan, &places)?;
    text.extend_from_slice(b"server\tbefore\tafter\tcapacity\tprice\n")?;
    push_places(alloc, &mut text, plan, &places)?;
    Ok(text)
}

/// No server, and each of the servers.
fn places(alloc: Global, servers: &[PricedServer]) -> Result<Vec<Place>, AllocError>
    requires { length servers.now ≤ MAX_SERVERS }
    ensures { IfOk result (λ all. all.items ≡ places (length servers.now)) }
{
    let mut all = Vec::new(alloc);
    all.push(None)?;
    let count = servers.len() as u8;
    for index in 0..count {
        all.push(Some(ServerId::new(index)))?;
    }
    Ok(all)
}

fn push_moves(
    alloc: Global,
    text: &mut Vec<u8>,
    plan: &Plan,
    places: &[Place],
) -> Result<(), AllocError>
    ensures { OnOk result (text.new.items ≡ text.old.items ++ flat_map (moves_from plan.now places.now) places.now) }
{
    for from in places {
        push_moves_from(alloc, text, plan, from, places)?;
    }
    Ok(())
}

fn push_moves_from(
    alloc: Global,
    text: &mut Vec<u8>,
    plan: &Plan,
    from: &Place,
    places: &[Place],
) -> Result<(), AllocError>
    ensures { OnOk result (text.new.items ≡ text.old.items ++ flat_map (move_line plan.now from.now) places.now) }
{
    for to in places {
        push_move(alloc, text, plan, *from, *to)?;
    }
    Ok(())
}

#[tactic(auto, unfolding(crate::specs::Tables::move_line))]
fn push_move(
    alloc: Global,
    text: &mut Vec<u8>,
    plan: &Plan,
    from: Place,
    to: Place,
) -> Result<(), AllocError>
    ensures { OnOk result (text.new.items ≡ text.old.items ++ move_line plan.now from to) }
{
    let pins = pins_between(plan.rows(), from, to);
    if from == to || pins == 0 {
        return Ok(());
    }
    push_cell(text, place_name(plan.servers(), from))?;
    push_cell(text, place_name(plan.servers(), to))?;
    push_number(alloc, text, pins)?;
    text.extend_from_slice(b"\n")
}

fn push_places(
    alloc: Global,
    text: &mut Vec<u8>,
    plan: &Plan,
    places: &[Place],
) -> Result<(), AllocError>
    ensures { OnOk result (text.new.items ≡ text.old.items ++ flat_map (place_line plan.now) places.now) }
{
    for place in places {
        push_place(alloc, text, plan, *place)?;
    }
    Ok(())
}

#[tactic(auto, unfolding(crate::specs::Tables::place_line))]
fn push_place(
    alloc: Global,
    text: &mut Vec<u8>,
    plan: &Plan,
    place: Place,
) -> Result<(), AllocError>
    ensures { OnOk result (text.new.items ≡ text.old.items ++ place_line plan.now place) }
{
    let before = pins_at(plan.rows(), &place);
    let after = pins_to(plan.rows(), &place);
    push_cell(text, place_name(plan.servers(), place))?;
    push_number_cell(alloc, text, before)?;
    push_number_cell(alloc, text, after)?;
    push_columns(alloc, text, plan.servers(), place)?;
    text.extend_from_slice(b"\n")
}

/// Appends the capacity and the price of the place to the text.
fn push_columns(
    alloc: Global,
    text: &mut Vec<u8>,
    servers: &[PricedServer],
    place: Place,
) -> Result<(), AllocError>
    ensures { OnOk result (text.new.items ≡ text.old.items ++ place_columns servers.now place) }
{
    let Some(server) = place else {
        return text.extend_from_slice(b"-\t-");
    };
    match servers.get(server.index()) {
        Some(priced) => push_usage(alloc, text, priced),
        None => Ok(()),
    }
}

fn push_usage(alloc: Global, text: &mut Vec<u8>, priced: &PricedServer) -> Result<(), AllocError>
    ensures { OnOk result (text.new.items ≡ text.old.items ++ usage_columns priced.now) }
{
    match priced.server.capacity {
        Some(capacity) => push_number_cell(alloc, text, u64::from(capacity))?,
        None => push_cell(text, b"off")?,
    }
    push_number(alloc, text, priced.price)
}

/// Appends this to the text, and a tab, which ends a column.
fn push_cell(text: &mut Vec<u8>, cell: &[u8]) -> Result<(), AllocError>
    ensures { OnOk result (text.new.items ≡ text.old.items ++ cell.now ++ 9 ∷ []) }
{
    text.extend_from_slice(cell)?;
    text.extend_from_slice(b"\t")
}

/// The same of a number.
fn push_number_cell(alloc: Global, text: &mut Vec<u8>, number: u64) -> Result<(), AllocError>
    ensures { OnOk result (text.new.items ≡ text.old.items ++ decimal number ++ 9 ∷ []) }
{
    push_number(alloc, text, number)?;
    text.extend_from_slice(b"\t")
}

/// Appends a number to the text.
fn push_number(alloc: Global, text: &mut Vec<u8>, number: u64) -> Result<(), AllocError>
    ensures { OnOk result (text.new.items ≡ text.old.items ++ decimal number) }
{
    text.extend_from_slice(number.to_string(alloc)?.as_bytes())
}

fn place_name<'a>(servers: &'a [PricedServer], place: Place) -> &'a [u8]
    ensures { result.now ≡ place_name servers.now place }
{
    let Some(server) = place else {
        return b"-";
    };
    match servers.get(server.index()) {
        Some(priced) => priced.server.name.as_bytes(),
        None => b"",
    }
}

fn pins_at(rows: &[Row], place: &Place) -> u64
    requires { pins_at rows.now place.now < 2 ^ 64 }
    ensures { result ≡ pins_at rows.now place.now }
{
    rows.iter()
        .map(|row| if row.kind.place == *place {
            u64::from(row.count)
        } else {
            0
        })
        .sum()
}

fn pins_to(rows: &[Row], place: &Place) -> u64
    requires { pins_to rows.now place.now < 2 ^ 64 }
    ensures { result ≡ pins_to rows.now place.now }
{
    rows.iter()
        .map(|row| if row.new_place == *place {
            u64::from(row.count)
        } else {
            0
        })
        .sum()
}

fn pins_between(rows: &[Row], from: Place, to: Place) -> u64
    requires { pins_between rows.now from to < 2 ^ 64 }
    ensures { result ≡ pins_between rows.now from to }
{
    rows.iter()
        .map(|row| if row.kind.place == from && row.new_place == to {
            u64::from(row.count)
        } else {
            0
        })
        .sum()
}

ghost use Rattle.std.specs.Prelude.{◌≡◌, ◌≤◌, ◌^◌, length};
ghost use Rattle.std.specs.Option.{option_map};
ghost use Rattle.lb_types_text.specs.Parts.{parts};
ghost use Rattle.haproxy_admin.specs.Faults.{Gives};
ghost use Rattle.haproxy_admin.specs.Lines.{said_from, with_said};
ghost use Rattle.haproxy_admin.specs.Servers.{columns_in, row_said, servers_below, servers_of};

use crate::bytes::is_same;
use crate::cuts::without_front;
use crate::fault::ReadError;
use crate::row::{Server, has_enough, names_servers, names_states, read_server, word_at};
use lb_types_text::Parts;
use std::alloc::Global;

/// The servers of the backend, in the text's order. The text is HAProxy's answer to `show servers state`.
///
/// Rows of other backends and empty lines are passed over, and columns that aren't needed too. The errors are out of memory, and the first
/// line that isn't of the form. It costs a few walks over the columns for each row, and memory for the servers.
#[tactic(auto, unfolding(crate::specs::Servers::servers_of))]
pub fn read_servers(alloc: Global, backend: &[u8], text: &[u8]) -> Result<Vec<Server>, ReadError>
    ensures exact { Gives (λ servers. servers.items) result (servers_of backend.now text.now) }
{
    let mut lines = Parts::new(text, b'\n');
    let Some(first) = lines.next_part() else {
        return Err(ReadError::Line(1));
    };
    if !is_same(first, b"1") {
        return Err(ReadError::Line(1));
    }
    read_below(alloc, backend, &mut lines)
}

/// The servers of the lines from line 2 on, which names the columns.
#[tactic(auto, unfolding(crate::specs::Servers::servers_below))]
fn read_below(alloc: Global, backend: &[u8], lines: &mut Parts) -> Result<Vec<Server>, ReadError>
    requires { length lines.old ≤ 2 ^ 63 }
    ensures { Gives (λ servers. servers.items) result (servers_below backend.now lines.old) }
{
    let Some(heading) = lines.next_part() else {
        return Err(ReadError::Line(2));
    };
    let Some(columns) = columns_in(heading) else {
        return Err(ReadError::Line(2));
    };
    read_rows(alloc, backend, columns, lines)
}

/// The names of the columns, if those that are needed are there.
#[tactic(auto, unfolding(crate::specs::Servers::columns_in))]
fn columns_in(heading: &[u8]) -> Option<&[u8]>
    ensures { option_map (λ columns. parts 32 columns.now) result ≡ columns_in heading.now }
{
    if !heading.starts_with(b"# ") {
        return None;
    }
    let columns = without_front(2, heading);
    if !names_servers(columns) {
        return None;
    }
    if !names_states(columns) {
        return None;
    }
    Some(columns)
}

/// The servers of the lines from line 3 on.
fn read_rows(
    alloc: Global,
    backend: &[u8],
    columns: &[u8],
    lines: &mut Parts,
) -> Result<Vec<Server>, ReadError>
    requires { length lines.old ≤ 2 ^ 63 }
    ensures { Gives (λ servers. servers.items) result (said_from (row_said backend.now (parts 32 columns.now)) 3 lines.old) }
{
    let mut servers = Vec::new(alloc);
    let mut number = 3;
    while let Some(line) = lines.next_part() {
        add_row(alloc, number, backend, columns, line, &mut servers)?;
        number += 1;
    }
    Ok(servers)
}

/// Adds the server that line `number` is, if it isn't empty and is of the backend.
#[tactic(auto, unfolding(crate::specs::Servers::row_said, crate::specs::Lines::with_said))]
fn add_row(
    alloc: Global,
    number: u64,
    backend: &[u8],
    columns: &[u8],
    line: &[u8],
    servers: &mut Vec<Server>,
) -> Result<(), ReadError>
    ensures { Gives (λ _. servers.new.items) result (with_said number (row_said backend.now (parts 32 columns.now) line.now) servers.old.items) }
{
    if line.is_empty() {
        return Ok(());
    }
    if !has_enough(columns, line) {
        return Err(ReadError::Line(number));
    }
    if !is_same(word_at(b"be_name", columns, line), backend) {
        return Ok(());
    }
    let Some(server) = read_server(alloc, columns, line)? else {
        return Err(ReadError::Line(number));
    };
    servers.push(server)?;
    Ok(())
}

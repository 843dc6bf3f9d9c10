ghost use Rattle.std.specs.Prelude.{◌≡◌, Ok, true, length, IfOk};
ghost use Rattle.haproxy_admin.specs.Servers.{servers_of};
ghost use Rattle.haproxy_admin.specs.Tables.{table_of};
ghost use Rattle.dual_cert_text.specs.PlanTexts.{plan_of_text};
ghost use Rattle.lb_cli_haproxy.specs.Commands.{AreCommandsFor, AreMovesBy, ArePlacesBy, first_part, table_name};
ghost use Rattle.lb_cli_haproxy.specs.PlanFarms.{farm_servers};

use crate::answer::Answer;
use crate::clients::{Client, clients_of, places_of};
use crate::moves::{all_have_numbers, moves_of, numbers_of};
use crate::plan_farm::{farm_servers, usable_servers};
use crate::refusal::Refusal;
use dual_cert_plan::Plan;
use dual_cert_text::read_plan;
use haproxy_admin::{Entry, ReadError, Server, read_servers, read_table};
use haproxy_commands::{Move, commands_text};
use haproxy_farm::places_by;
use lb_types::Place;
use lb_types_text::cut;
use pin_set::ViewServer;
use std::alloc::{AllocError, Global};

/// The commands that make the plan so: for each client of the dump that the plan sends to another server, two commands that move its entry.
///
/// `state` is HAProxy's answer to `show servers state`, `dump` its answer to `show table` with a table's name, and `plan` the text of a
/// plan for a sheet of this dump. The plan's servers are the farm. Entries at none of them are passed over. Of a server's clients those
/// that come last in the dump move.
///
/// Where there are no commands to give, the answer is a line that says why. The only error is out of memory. It costs a few walks over
/// the texts, a check of the plan, and memory for the entries and the commands.
pub fn commands_answer(
    alloc: Global,
    backend: &[u8],
    state: &[u8],
    dump: &[u8],
    plan: &[u8],
) -> Result<Answer, AllocError>
    ensures { IfOk result (λ answer. answer.is_good ≡ true
        → AreCommandsFor backend.now state.now dump.now plan.now answer.text.items) }
{
    match commands_for(alloc, backend, state, dump, plan) {
        Ok(text) => Ok(Answer {
            is_good: true,
            text,
        }),
        Err(refusal) => Answer::refused(alloc, refusal),
    }
}

/// The commands, or why there are none.
#[tactic(auto, using(crate::proofs::Made::commands))]
fn commands_for(
    alloc: Global,
    backend: &[u8],
    state: &[u8],
    dump: &[u8],
    plan: &[u8],
) -> Result<Vec<u8>, Refusal>
    ensures { IfOk result (λ text. AreCommandsFor backend.now state.now dump.now plan.now text.items) }
{
    let plan = read_plan(alloc, plan)?;
    let servers = servers_in(alloc, backend, state)?;
    let entries = entries_in(alloc, dump)?;
    let farm = farm_servers(alloc, &plan)?;
    let clients = clients_of(alloc, &servers, &farm, &entries)?;
    let moves = moves_by(alloc, &plan, &farm, &servers, &clients)?;
    let text = commands_text(alloc, table_name(dump), &moves)?;
    Ok(text)
}

/// HAProxy's servers in the backend.
pub(crate) fn servers_in(
    alloc: Global,
    backend: &[u8],
    state: &[u8],
) -> Result<Vec<Server>, Refusal>
    ensures { IfOk result (λ servers. servers_of backend.now state.now ≡ Ok servers.items) }
{
    match read_servers(alloc, backend, state) {
        Ok(servers) => Ok(servers),
        Err(ReadError::Line(line)) => Err(Refusal::State(line)),
        Err(ReadError::Memory) => Err(Refusal::Memory),
    }
}

/// The entries of the dump.
pub(crate) fn entries_in(alloc: Global, dump: &[u8]) -> Result<Vec<Entry>, Refusal>
    ensures { IfOk result (λ entries. table_of dump.now ≡ Ok entries.items) }
{
    match read_table(alloc, dump) {
        Ok(entries) => Ok(entries),
        Err(ReadError::Line(line)) => Err(Refusal::Dump(line)),
        Err(ReadError::Memory) => Err(Refusal::Memory),
    }
}

/// The moves of the clients by the plan, whose servers are the farm.
#[tactic(auto, using(crate::proofs::Made::moves))]
fn moves_by<'a>(
    alloc: Global,
    plan: &Plan,
    farm: &[ViewServer],
    servers: &[Server],
    clients: &'a [Client],
) -> Result<Vec<Move<'a>>, Refusal>
    requires { farm.now ≡ farm_servers plan.now }
    ensures { IfOk result (λ moves. AreMovesBy plan.now servers.now clients.now moves.items) }
{
    let places = new_places(alloc, plan, farm, clients)?;
    let Some(numbers) = numbers_of(alloc, servers, farm)? else {
        return Err(Refusal::UnknownServer);
    };
    if !all_have_numbers(&numbers, &places) {
        return Err(Refusal::Unplaced);
    }
    let moves = moves_of(alloc, &numbers, clients, &places)?;
    Ok(moves)
}

/// Where the clients are by the plan.
fn new_places(
    alloc: Global,
    plan: &Plan,
    farm: &[ViewServer],
    clients: &[Client],
) -> Result<Vec<Place>, Refusal>
    requires { farm.now ≡ farm_servers plan.now }
    ensures by_plan { IfOk result (λ places. ArePlacesBy plan.now clients.now places.items) }
    ensures whole { IfOk result (λ places. length places.items ≡ length clients.now) }
{
    let now = places_of(alloc, clients)?;
    match places_by(alloc, usable_servers(plan), farm, &now, plan)? {
        Some(places) => Ok(places),
        None => Err(Refusal::OtherDump),
    }
}

/// The name of the table that was dumped.
#[tactic(auto, unfolding(crate::specs::Commands::table_name))]
fn table_name(dump: &[u8]) -> &[u8]
    ensures { result.now ≡ table_name dump.now }
{
    let (_, name) = dump.split_at(dump.len().min(9));
    first_part(first_part(name, b'\n'), b',')
}

/// What stands before the first such byte.
#[tactic(auto, unfolding(crate::specs::Commands::first_part))]
fn first_part(bytes: &[u8], mark: u8) -> &[u8]
    ensures { result.now ≡ first_part mark bytes.now }
{
    match cut(bytes, mark) {
        Some((first, _)) => first,
        None => bytes,
    }
}

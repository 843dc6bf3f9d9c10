//! Starting threads. Each runs in the scope that it is given, and ends by the flag of the floor or by the end of a channel.
use crate::calling::call_workers;
use crate::threads::{check, listen, plan, relay};
use crossbeam_channel::{Receiver, Sender, bounded};
use http_relay_listen::OtherFiles;
use http_relay_lobby::{Lane, WaitingLine, waiting_line};
use http_relay_work::MOST_ON_CALL;
use lb_config::{BackendConfig, Config};
use lb_desk_planner::Bell;
use lb_desk_ports::Refused;
use lb_run_doors::ClientDoor;
use lb_run_floor::{Floor, Host, Reports, Seating, SharedGate};
use std::alloc::{AllocError, Global};
use std::net::TcpStream;
use std::thread::Scope;

/// How many files a listener needs: one to watch its clients, and two for a client that waits at its door.
const FILES_A_LISTENER: usize = 3;

/// How many files operators' connections and files that are read or written need.
const MORE_FILES: usize = 32;

/// What keeps planners and checks at work. Both end once it is let go.
#[derive(Drop)]
pub struct Started {
    /// The bells of the planners, at their backends' places.
    pub bells: Vec<Option<Bell>>,
    /// The end of the channel by which checks learn that they are to end.
    pub checks_end: Sender<()>,
}

/// Starts all threads but those that answer operators.
pub fn start<'s, E, R: Host, D: Seating<R> + Send + Sync, G: SharedGate<R>>(
    rt: &'s R,
    scope: &'s Scope<'s, E>,
    floor: &'s Floor<'s, D, G>,
    doors: Vec<ClientDoor>,
) -> Result<Started, Refused> {
    say_listening(rt, floor.alloc, &floor.reports, &doors)?;
    let (lanes, line) = waiting_line(floor.alloc, doors.len())?;
    let files = other_files(floor.config, &doors);
    let (checks_end, ends) = bounded(floor.alloc, 1)?;
    let bells = start_planners(rt, scope, floor)?;
    start_checks(rt, scope, floor, &bells, ends)?;
    start_workers(rt, scope, floor, &line)?;
    start_calls(rt, scope, floor, line)?;
    start_listeners(rt, scope, floor, doors, lanes, files)?;
    Ok(Started { bells, checks_end })
}

/// Writes to standard error where clients can connect.
fn say_listening<R: Host>(
    rt: &R,
    alloc: Global,
    reports: &Reports,
    doors: &[ClientDoor],
) -> Result<(), AllocError> {
    for door in doors {
        let mut line = Vec::new(alloc);
        line.extend_from_slice(b"listening on ")?;
        line.extend_from_slice(&door.address_text(alloc)?)?;
        line.extend_from_slice(b"\n")?;
        reports.say(rt, &line);
    }
    Ok(())
}

/// Starts the planner of each backend that moves pins by itself, and gives their bells, at the backends' places.
fn start_planners<'s, E, R: Host, D: Seating<R> + Send + Sync, G: SharedGate<R>>(
    rt: &'s R,
    scope: &'s Scope<'s, E>,
    floor: &'s Floor<'s, D, G>,
) -> Result<Vec<Option<Bell>>, AllocError> {
    let mut bells = Vec::new(floor.alloc);
    for (place, backend) in floor.config.backends().iter().enumerate() {
        if backend.evacuate() {
            let (bell, notices) = Bell::new(floor.alloc)?;
            bells.push(Some(bell))?;
            scope.spawn(move || plan(rt, floor, place, notices))?;
        } else {
            bells.push(None)?;
        }
    }
    Ok(bells)
}

/// Starts the thread that checks servers of each backend that has such servers.
fn start_checks<'s, E, R: Host, D: Seating<R> + Send + Sync, G: SharedGate<R>>(
    rt: &'s R,
    scope: &'s Scope<'s, E>,
    floor: &'s Floor<'s, D, G>,
    bells: &[Option<Bell>],
    ends: Receiver<()>,
) -> Result<(), AllocError> {
    for (place, backend) in floor.config.backends().iter().enumerate() {
        if !has_checks(backend) {
            continue;
        }
        let bell = bell_at(bells, place)?;
        let ends = ends.clone()?;
        scope.spawn(move || check(rt, floor, place, bell, ends))?;
    }
    Ok(())
}

fn has_checks(backend: &BackendConfig) -> bool {
    backend
        .servers()
        .iter()
        .any(|server| server.settings().check.is_some())
}

/// How many files checks of the backend have open at most: a connection to each server, and two of their own.
fn files_of_checks(backend: &BackendConfig) -> usize {
    if has_checks(backend) {
        backend.servers().len().saturating_add(2)
    } else {
        0
    }
}

fn bell_at(bells: &[Option<Bell>], place: usize) -> Result<Option<Bell>, AllocError> {
    match bells.get(place) {
        Some(Some(bell)) => Ok(Some(bell.clone()?)),
        _ => Ok(None),
    }
}

/// Starts as many workers as the configuration says.
fn start_workers<'s, E, R: Host, D: Seating<R> + Send + Sync, G: SharedGate<R>>(
    rt: &'s R,
    scope: &'s Scope<'s, E>,
    floor: &'s Floor<'s, D, G>,
    line: &WaitingLine<TcpStream>,
) -> Result<(), AllocError> {
    for place in 0..usize::from(floor.config.relays()) {
        let line = line.copy(floor.alloc)?;
        floor.roster.enter();
        scope.spawn(move || relay(rt, floor, line, place))?;
    }
    Ok(())
}

/// Starts the thread that calls workers while too few are at work.
fn start_calls<'s, E, R: Host, D: Seating<R> + Send + Sync, G: SharedGate<R>>(
    rt: &'s R,
    scope: &'s Scope<'s, E>,
    floor: &'s Floor<'s, D, G>,
    line: WaitingLine<TcpStream>,
) -> Result<(), AllocError> {
    let (to, calls) = bounded(floor.alloc, MOST_ON_CALL)?;
    scope.spawn(move || call_workers(rt, scope, floor, line, to, calls))?;
    Ok(())
}

/// The files beside clients' connections: those that are open by now, a dial for each worker, and those of listeners, checks and
/// operators.
fn other_files(config: &Config, doors: &[ClientDoor]) -> OtherFiles {
    let own = match doors.first() {
        Some(door) => door.listener.next_descriptor(),
        None => 0,
    };
    let mut others = doors.len().saturating_mul(FILES_A_LISTENER);
    for backend in config.backends() {
        others = others.saturating_add(files_of_checks(backend));
    }
    OtherFiles {
        own,
        dials: usize::from(config.relays()) + MOST_ON_CALL,
        others: others.saturating_add(MORE_FILES),
    }
}

/// Starts a listener at each door, with a lane of the line for each, so that the workers end after the last of them.
fn start_listeners<'s, E, R: Host, D: Seating<R> + Send + Sync, G: SharedGate<R>>(
    rt: &'s R,
    scope: &'s Scope<'s, E>,
    floor: &'s Floor<'s, D, G>,
    doors: Vec<ClientDoor>,
    lanes: Vec<Lane<TcpStream>>,
    files: OtherFiles,
) -> Result<(), AllocError> {
    for (door, lane) in doors.into_iter().zip(lanes) {
        scope.spawn(move || listen(rt, floor, door, lane, files))?;
    }
    Ok(())
}

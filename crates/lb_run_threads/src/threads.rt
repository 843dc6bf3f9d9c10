//! What each thread does, from its first seat to its last. A thread that can't begin ends the balancer.
ghost use Rattle.std.specs.Prelude.{◌≡◌, List, Some, map, slice_get};
ghost use Rattle.http_relay_serve.specs.Serves.{port_seen};
ghost use Rattle.http_relay_work.specs.Services.{Service, ServesInTurn};
ghost use Rattle.lb_desk_planner.specs.Told.{PlansAsTold, ledger};
ghost use Rattle.lb_desk_backend.specs.Configured.{OpenInOrder, OpensAt};

use crate::announcer::Announcer;
use check_workers_loop::check_until_stopped;
use check_workers_system::SocketProbes;
use check_workers_targets::{checks_of, targets_of};
use crossbeam_channel::Receiver;
use http_relay_listen::OtherFiles;
use http_relay_lobby::{Lane, MOST_GUESTS, Rules, WaitingLine, gather_until_stopped};
use http_relay_system::SystemClock;
use http_relay_work::{Post, Relay, work};
use lb_config::BackendConfig;
use lb_desk_planner::{Bell, Notices, plan_when_told};
use lb_desk_ports::{Mover, Refused};
use lb_run_doors::ClientDoor;
use lb_run_floor::{
    Desks, Floor, Host, Seating, SharedGate, backend_at, leave_all, seat_at, seats,
};
use std::net::TcpStream;
use std::sync::atomic::Ordering;

/// Accepts the clients of a frontend, and hands on those whose heads are whole, until the balancer ends.
pub(crate) fn listen<R: Host, D: Desks, G: Drop>(
    rt: &R,
    floor: &Floor<'_, D, G>,
    door: ClientDoor,
    to: Lane<TcpStream>,
    files: OtherFiles,
) {
    let ClientDoor {
        listener,
        endpoint: _,
        frontend,
        limits,
    } = door;
    let rules = Rules {
        frontend,
        silence: limits.read,
        most_guests: MOST_GUESTS,
        files,
    };
    floor.listeners.fetch_add(1, Ordering::SeqCst);
    let gathered = gather_until_stopped(
        rt,
        floor.alloc,
        listener,
        rules,
        &floor.stop,
        &floor.cut,
        to,
    );
    if gathered.is_err() {
        floor.starve();
    }
    floor.listeners.fetch_sub(1, Ordering::SeqCst);
}

/// Serves clients until no listener is left and no client waits.
pub(crate) fn relay<R: Host, D: Seating<R>, G: SharedGate<R>>(
    rt: &R,
    floor: &Floor<'_, D, G>,
    line: WaitingLine<TcpStream>,
    place: usize,
) {
    let post = Post::at_the_line(&floor.roster, place);
    if serve_at(rt, floor, &line, post).is_err() {
        floor.starve();
    }
}

/// The same for a worker on call. One that there is no memory for is left out.
pub(crate) fn relay_on_call<R: Host, D: Seating<R>, G: SharedGate<R>>(
    rt: &R,
    floor: &Floor<'_, D, G>,
    line: WaitingLine<TcpStream>,
    place: usize,
    calls: Receiver<()>,
) {
    let _ = serve_at(
        rt,
        floor,
        &line,
        Post::on_call(&floor.roster, place, &calls),
    );
}

/// Serves clients at this post, from the worker's first seat to its last.
fn serve_at<R: Host, D: Seating<R>, G: SharedGate<R>>(
    rt: &R,
    floor: &Floor<'_, D, G>,
    line: &WaitingLine<TcpStream>,
    post: Post<'_>,
) -> Result<(), Refused> {
    match seats(rt, floor) {
        Ok(seats) => {
            let seats = serve_seated(rt, floor, line, post, seats);
            leave_all(rt, floor, seats);
            floor.roster.leave();
            Ok(())
        }
        Err(refused) => {
            floor.roster.leave();
            Err(refused)
        }
    }
}

/// Serves clients at these seats, the one at each place for the backend of that place, and gives them back.
fn serve_seated<R: Host, D: Seating<R>, G: SharedGate<R>>(
    rt: &R,
    floor: &Floor<'_, D, G>,
    line: &WaitingLine<TcpStream>,
    post: Post<'_>,
    seats: Vec<D::Seat>,
) -> Vec<D::Seat>
    requires desks { OpenInOrder floor.now.config.now.backends (map D.Seat.Mover.backend seats.items) }
    ensures served { (services : List Service) × ServesInTurn (port_seen D.Seat.Port.entries D.Seat.Port.refusals) D.Seat.Port.server_of
        floor.now.config.now seats.items result.items services }
{
    let relay = Relay {
        config: floor.config,
        start: floor.start,
    };
    work(rt, floor.alloc, relay, line, post, floor.gate, seats)
}

/// Checks the servers of the backend at this place until the balancer ends.
pub(crate) fn check<R: Host, D: Seating<R>, G: Drop>(
    rt: &R,
    floor: &Floor<'_, D, G>,
    place: usize,
    bell: Option<Bell>,
    ends: Receiver<()>,
) {
    if check_at(rt, floor, place, bell, &ends).is_err() {
        floor.starve();
    }
}

fn check_at<R: Host, D: Seating<R>, G: Drop>(
    rt: &R,
    floor: &Floor<'_, D, G>,
    place: usize,
    bell: Option<Bell>,
    ends: &Receiver<()>,
) -> Result<(), Refused> {
    let Some(backend) = backend_at(floor, place) else {
        return Err(Refused::Memory);
    };
    let mut seat = seat_at(rt, floor, place)?;
    let checked = check_seated(rt, floor, place, backend, &mut seat, bell, ends);
    floor.desks.leave(rt, seat);
    checked
}

/// Checks the servers of this backend, whose desk the seat is at.
fn check_seated<R: Host, D: Seating<R>, G: Drop>(
    rt: &R,
    floor: &Floor<'_, D, G>,
    place: usize,
    backend: &BackendConfig,
    seat: &mut D::Seat,
    bell: Option<Bell>,
    ends: &Receiver<()>,
) -> Result<(), Refused>
    requires backend { slice_get floor.now.config.now.backends place ≡ Some backend.now }
    requires seat { OpensAt floor.now.config.now.backends place (D.Seat.Mover.backend seat.old) }
{
    let targets = targets_of(floor.alloc, backend)?;
    let mut checks = checks_of(floor.alloc, backend)?;
    let mut probes = SocketProbes::new(rt, floor.alloc, &targets).map_err(|_| Refused::Memory)?;
    let mut clock = SystemClock::new(floor.start);
    let mut flips = Announcer {
        alloc: floor.alloc,
        reports: &floor.reports,
        backend,
        bell,
    };
    check_until_stopped(
        rt,
        &mut probes,
        &mut clock,
        seat,
        &mut flips,
        &mut checks,
        ends,
    );
    Ok(())
}

/// Moves pins of the backend at this place each time that its bells ring, until all of them are gone.
pub(crate) fn plan<R: Host, D: Seating<R>, G: SharedGate<R>>(
    rt: &R,
    floor: &Floor<'_, D, G>,
    place: usize,
    notices: Notices,
) {
    let Ok(mut seat) = seat_at(rt, floor, place) else {
        floor.starve();
        return;
    };
    let mut notices = notices;
    plan_seated(rt, floor, place, &mut seat, &mut notices);
    floor.desks.leave(rt, seat);
}

/// Moves pins at this seat, which is at the desk of the backend at this place.
fn plan_seated<R: Host, D: Seating<R>, G: SharedGate<R>>(
    rt: &R,
    floor: &Floor<'_, D, G>,
    place: usize,
    seat: &mut D::Seat,
    notices: &mut Notices,
)
    requires seat { OpensAt floor.now.config.now.backends place (D.Seat.Mover.backend seat.old) }
    ensures { PlansAsTold floor.now.config.now.tries
        (ledger notices.old (D.Seat.Mover.entries seat.old) (D.Seat.Mover.planned_now seat.old) (D.Seat.Mover.refusals seat.old))
        (ledger notices.new (D.Seat.Mover.entries seat.new) (D.Seat.Mover.planned_now seat.new) (D.Seat.Mover.refusals seat.new)) }
{
    plan_at(rt, floor, seat, notices);
}

/// Moves pins at this mover, in as many tries at most as the configuration says.
fn plan_at<R: Host, D: Desks, G: SharedGate<R>, M: Mover<R>>(
    rt: &R,
    floor: &Floor<'_, D, G>,
    mover: &mut M,
    notices: &mut Notices,
)
    ensures { PlansAsTold floor.now.config.now.tries
        (ledger notices.old (M.entries mover.old) (M.planned_now mover.old) (M.refusals mover.old))
        (ledger notices.new (M.entries mover.new) (M.planned_now mover.new) (M.refusals mover.new)) }
{
    let tries = u32::from(floor.config.tries());
    plan_when_told(rt, floor.alloc, mover, &floor.gate, tries, notices);
}

ghost use Rattle.std.specs.Prelude.{map, IsErrOf, OnOk};
ghost use Rattle.lb_types_counted.specs.Writers.{Rises};
ghost use Rattle.lb_run_floor.specs.Places.{AreAt};
ghost use Rattle.lb_run.specs.Runs.{EndsClosed, opened_as};
ghost use Rattle.lb_run_desks.specs.NewDesks.{AreNamed, Open};

use crate::closing::close_all;
use crate::seating::RunDesks;
use crate::streams::hold_closed_streams;
use crate::{Kept, RunFault};
use command_socket_listen::CommandListener;
use http_relay_work::MOST_ON_CALL;
use lb_config::Config;
use lb_desk_ports::{OpenGate, Refused};
use lb_desk_shared::{Naming, SharedDesk};
use lb_run_desks::{NewDesk, PassBox, named_desks, new_desks};
use lb_run_doors::{ClientDoor, Doors, handed_over};
use lb_run_floor::{Floor, Host, Seating, SharedGate};
use lb_run_operators::{OPERATORS, answer_operators};
use lb_run_pins::{
    PinsPlace, TextFiles, greatest_age_of, return_kept, save, set_back, start_saving,
};
use lb_run_threads::{Started, start};
use lb_types::Counted;
use std::alloc::Global;
use std::env::Env;
use std::fs::Files;
use std::hash::RandomState;
use std::io::Write;
use std::marker::Brand;
use std::thread;
use std::thread::Scope;
use std::time::Instant;

/// Balances the load of a configuration until the command `stop` comes over its command socket; without a socket, for ever. At the end
/// a line `closed web events 15 rising yes` is written for each backend, in the configuration's order.
///
/// All addresses are bound before anything runs. A `bind` uses the socket that was handed over for its address, if there is one. So this
/// is called once in a process. Standard error lists where clients can connect, and reports when a check makes a server go up or down.
/// Requests whose head was read are finished before the end.
pub fn run_config<R: Host + Files + TextFiles + Env, W: Write>(
    rt: &R,
    alloc: Global,
    config: &Config,
    out: &mut Counted<W>,
) -> Result<(), RunFault>
    ensures closed { OnOk result (EndsClosed config.now.backends out.old.contents out.new.contents) }
    ensures cannot_write { IsErrOf result RunFault.CannotWrite → Rises out.old.failures out.new.failures }
{
    run_config_keeping(rt, alloc, config, None, OpenGate, out)
}

/// The same, where workers, planners and operators' threads pass this gate at their points, so that a test can hold them there.
pub fn run_config_past<R: Host + Files + TextFiles + Env, G: SharedGate<R>, W: Write>(
    rt: &R,
    alloc: Global,
    config: &Config,
    gate: G,
    out: &mut Counted<W>,
) -> Result<(), RunFault>
    ensures closed { OnOk result (EndsClosed config.now.backends out.old.contents out.new.contents) }
    ensures cannot_write { IsErrOf result RunFault.CannotWrite → Rises out.old.failures out.new.failures }
{
    run_config_keeping(rt, alloc, config, None, gate, out)
}

/// The same, where pins outlive the process, if a file keeps them: its pins are set once all addresses are bound and before a client is
/// accepted, and at the end the file is written, after all requests. A line on standard error says of each backend how many pins were kept
/// and left out. The clocks of all threads begin as long before the start as the oldest pin was used, or as far back as the system's goes.
pub fn run_config_keeping<R: Host + Files + TextFiles + Env, G: SharedGate<R>, W: Write>(
    rt: &R,
    alloc: Global,
    config: &Config,
    kept: Option<Kept<'_>>,
    gate: G,
    out: &mut Counted<W>,
) -> Result<(), RunFault>
    ensures closed { OnOk result (EndsClosed config.now.backends out.old.contents out.new.contents) }
    ensures cannot_write { IsErrOf result RunFault.CannotWrite → Rises out.old.failures out.new.failures }
{
    let _held = hold_closed_streams(rt);
    let handed = handed_over(rt, alloc)?;
    let (Ok(hasher), Ok(now)) = (RandomState::new(rt), Instant::now(rt)) else {
        return Err(RunFault::System);
    };
    let start = Start {
        moment: set_back(now, greatest_age_of(&kept)),
        hasher,
        kept,
    };
    let desks = new_desks(alloc, config.backends(), hasher)?;
    let doors = Doors::open(rt, alloc, config, handed)?;
    run_named::<R, Brand, G, W>(rt, alloc, config, start, desks, doors, gate, out)
}

/// What the balancer starts with: the moment from which all clocks count, and the pins of the process before, found by this hasher.
#[derive(Drop)]
struct Start<'a> {
    moment: Instant,
    hasher: RandomState,
    kept: Option<Kept<'a>>,
}

/// The same, with desks whose name is picked.
fn run_named<R: Host + Files + TextFiles, B: Naming + Send + Sync, G: SharedGate<R>, W: Write>(
    rt: &R,
    alloc: Global,
    config: &Config,
    start: Start<'_>,
    desks: Vec<NewDesk<RandomState>>,
    doors: Doors,
    gate: G,
    out: &mut Counted<W>,
) -> Result<(), RunFault>
    requires names { AreNamed B.table_of B.opening B.journal_size desks.items }
    requires opened { Open config.now.backends desks.items }
    ensures closed { OnOk result (EndsClosed config.now.backends out.old.contents out.new.contents) }
    ensures cannot_write { IsErrOf result RunFault.CannotWrite → Rises out.old.failures out.new.failures }
{
    let desks = named_desks::<RandomState, B>(alloc, desks)?;
    let passes = PassBox::new(alloc, most_passes(config, start.kept.is_some()))?;
    serve(rt, alloc, config, start, &desks, &passes, doors, gate)?;
    close_all(alloc, config, desks, passes.into_passes(), out)
}

/// How many passes the threads have together at most: each worker, those on call included, and each operators' thread one at each desk, and
/// each desk's checks and planner one. Where pins are kept, one at each desk to set them, and two to write them.
fn most_passes(config: &Config, keeps_pins: bool) -> usize {
    let keepers = if keeps_pins { 3 } else { 0 };
    (usize::from(config.relays()) + MOST_ON_CALL + OPERATORS + 2 + keepers).saturating_mul(
        config.backends().len(),
    )
}

/// Runs all threads, and returns once all of them have ended.
fn serve<R: Host + Files + TextFiles, B: Naming + Send + Sync, G: SharedGate<R>>(
    rt: &R,
    alloc: Global,
    config: &Config,
    start: Start<'_>,
    desks: &[SharedDesk<RandomState, B>],
    passes: &PassBox<B>,
    doors: Doors,
    gate: G,
) -> Result<(), RunFault>
    requires places { AreAt config.now.backends (map (opened_as B.opening B.journal_size) desks.now) }
    ensures unwritten { IsErrOf result RunFault.CannotWrite → ⊥ }
{
    let desks = RunDesks {
        alloc,
        desks,
        passes,
    };
    let floor = Floor::new(alloc, config, desks, start.moment, gate)?;
    let Doors { clients, commands } = doors;
    let Ok(place) = return_kept(rt, &floor, start.hasher, start.kept) else {
        return Err(RunFault::Memory);
    };
    let served = serve_on(rt, &floor, clients, commands, place);
    if let Some(place) = place {
        save(rt, &floor, place);
    }
    if served.is_err() || floor.is_starved() {
        return Err(RunFault::Memory);
    }
    Ok(())
}

/// Runs all threads on the floor.
fn serve_on<R: Host + Files + TextFiles, B: Naming + Send + Sync, G: SharedGate<R>>(
    rt: &R,
    floor: &Floor<'_, RunDesks<'_, B>, G>,
    clients: Vec<ClientDoor>,
    operators: Option<CommandListener>,
    place: Option<PinsPlace<'_>>,
) -> Result<(), Refused> {
    thread::scope(
        thread::scope_env(),
        rt,
        move |scope| serve_in(rt, scope, floor, clients, operators, place),
    )
}

/// The same in this scope. The operators' address is free again as soon as no operator is answered any more.
fn serve_in<'s, E, R: Host + Files + TextFiles, B: Naming + Send + Sync, G: SharedGate<R>>(
    rt: &'s R,
    scope: &'s Scope<'s, E>,
    floor: &'s Floor<'s, RunDesks<'s, B>, G>,
    clients: Vec<ClientDoor>,
    operators: Option<CommandListener>,
    place: Option<PinsPlace<'s>>,
) -> Result<(), Refused> {
    let served = start_and_answer(rt, scope, floor, clients, operators.as_ref(), place);
    floor.stop();
    if let Some(listener) = operators {
        // A file that stays is replaced at the next start.
        let _ = listener.close(rt);
    }
    served
}

/// Starts all threads, and returns once the balancer is to end and operators are answered no more. Returning, it has let go of all
/// channels, by whose ends checks and planners end, and what writes pins.
fn start_and_answer<
    's,
    E,
    R: Host + Files + TextFiles,
    D: Seating<R> + Send + Sync,
    G: SharedGate<R>,
>(
    rt: &'s R,
    scope: &'s Scope<'s, E>,
    floor: &'s Floor<'s, D, G>,
    clients: Vec<ClientDoor>,
    operators: Option<&CommandListener>,
    place: Option<PinsPlace<'s>>,
) -> Result<(), Refused> {
    let Started { bells, checks_end } = start(rt, scope, floor, clients)?;
    let _saving = match place {
        Some(place) => Some(start_saving(rt, scope, floor, place)?),
        None => None,
    };
    match operators {
        Some(listener) => Ok(answer_operators(rt, floor, listener, bells, checks_end)?),
        None => {
            floor.wait_for_end(rt);
            Ok(())
        }
    }
}

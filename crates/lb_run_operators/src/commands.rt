ghost use Rattle.std.specs.Prelude.{◌≡◌, map, IfOk};
ghost use Rattle.command_socket_serve.specs.Consoles.{AreNamesOf};
ghost use Rattle.lb_desk_backend.specs.Configured.{AreBackendsOf, OpenInOrder};

use crate::bells::{Bells, copies_of};
use command_socket_listen::{CommandListener, LineStream};
use command_socket_serve::{Console, Next, named_backend, serve_connection};
use crossbeam_channel::{Sender, bounded};
use http_relay_socket::end_gently;
use lb_answers::NamedBackend;
use lb_config::BackendConfig;
use lb_desk_backend::backend_of;
use lb_desk_model::Backend;
use lb_desk_planner::Bell;
use lb_desk_ports::Refused;
use lb_run_floor::{Desks, Floor, Host, Seating, SharedGate, leave_all, seats};
use lb_types::Moment;
use std::alloc::{AllocError, Global};
use std::sync::atomic::{AtomicBool, Ordering};
use std::thread;
use std::thread::Scope;
use std::time::Duration;

/// How many operators are answered at a time. So many silent or slow ones are needed to keep another one out.
pub const OPERATORS: usize = 4;

/// The room through which the rest of an operator's bytes is read and dropped.
const ROOM: usize = 4096;

/// How many milliseconds pass between two looks at whether the workers have ended.
const LOOK_MILLIS: u64 = 20;

/// Answers operators, some at a time, until the balancer is to end, no worker is left, and what operators asked for by then is done: so
/// they are answered also after `stop`, while requests are finished and a plan is made. `checks_end` is let go once the balancer is to
/// end, and the checks end by that.
pub fn answer_operators<R: Host, D: Seating<R> + Send + Sync, G: SharedGate<R>>(
    rt: &R,
    floor: &Floor<'_, D, G>,
    listener: &CommandListener,
    bells: Vec<Option<Bell>>,
    checks_end: Sender<()>,
) -> Result<(), AllocError> {
    let end = End::new();
    let end = &end;
    thread::scope(
        thread::scope_env(),
        rt,
        move |scope| answer_in(rt, scope, floor, listener, bells, checks_end, end),
    )
}

/// The same in this scope.
fn answer_in<'s, E, R: Host, D: Seating<R> + Send + Sync, G: SharedGate<R>>(
    rt: &'s R,
    scope: &'s Scope<'s, E>,
    floor: &'s Floor<'s, D, G>,
    listener: &'s CommandListener,
    bells: Vec<Option<Bell>>,
    checks_end: Sender<()>,
    end: &'s End,
) -> Result<(), AllocError> {
    let (busy, none_busy) = bounded(floor.alloc, 1)?;
    let started = start_operators(rt, scope, floor, listener, &bells, end, busy);
    if started.is_err() {
        floor.stop();
    }
    drop(bells);
    floor.wait_for_end(rt);
    drop(checks_end);
    wait_for_workers(rt, floor);
    end.is_near.store(true, Ordering::SeqCst);
    // Nobody sends: it waits until each thread has let go of its sender.
    let _ = none_busy.recv(rt);
    end.is_here.store(true, Ordering::SeqCst);
    started
}

/// How far the end is. Both flags are set once, in their order.
#[derive(Drop)]
struct End {
    /// No worker is left. From here on an operator has less time.
    is_near: AtomicBool,
    /// All that operators had asked for by then is done. Nobody else is answered.
    is_here: AtomicBool,
}

impl End {
    fn new() -> Self {
        End {
            is_near: AtomicBool::new(false),
            is_here: AtomicBool::new(false),
        }
    }
}

/// Starts the threads that answer operators. Each lets go of its copy of `busy` once it has answered who came before the end was near.
fn start_operators<'s, E, R: Host, D: Seating<R> + Send + Sync, G: SharedGate<R>>(
    rt: &'s R,
    scope: &'s Scope<'s, E>,
    floor: &'s Floor<'s, D, G>,
    listener: &'s CommandListener,
    bells: &[Option<Bell>],
    end: &'s End,
    busy: Sender<()>,
) -> Result<(), AllocError> {
    for _ in 0..OPERATORS {
        let bells = Bells {
            rt,
            bells: copies_of(floor.alloc, bells)?,
        };
        let busy = busy.clone()?;
        scope.spawn(move || answer_some(rt, floor, listener, bells, end, busy))?;
    }
    Ok(())
}

/// Waits until each worker has finished its requests and ended. Clients that alone hold this up for longer than they may are cut off.
fn wait_for_workers<R: Host, D: Desks, G: Drop>(rt: &R, floor: &Floor<'_, D, G>) {
    for _ in rt.forever() {
        if floor.roster.is_empty() {
            break;
        }
        floor.roster.cut_off_late(rt, millis_of(rt, floor).max(1));
        thread::sleep(rt, Duration::from_millis(LOOK_MILLIS));
    }
}

/// How many milliseconds have passed since the start from which the clocks of all threads count; 0 where the clock can't be read.
fn millis_of<R: Host, D: Desks, G: Drop>(rt: &R, floor: &Floor<'_, D, G>) -> u64 {
    match floor.start.elapsed(rt) {
        Ok(passed) => u64::try_from(passed.as_millis()).unwrap_or(u64::MAX),
        Err(_) => 0,
    }
}

/// Answers one operator after another, from the thread's first seat to its last pass.
fn answer_some<R: Host, D: Seating<R>, G: SharedGate<R>>(
    rt: &R,
    floor: &Floor<'_, D, G>,
    listener: &CommandListener,
    bells: Bells<'_, R>,
    end: &End,
    busy: Sender<()>,
) {
    if answer_at_seats(rt, floor, listener, bells, end, busy).is_err() {
        floor.starve();
    }
}

/// The same. The error is that the thread can't begin.
fn answer_at_seats<R: Host, D: Seating<R>, G: SharedGate<R>>(
    rt: &R,
    floor: &Floor<'_, D, G>,
    listener: &CommandListener,
    bells: Bells<'_, R>,
    end: &End,
    busy: Sender<()>,
) -> Result<(), Refused> {
    let configs = floor.config.backends();
    let backends = backends_of(floor.alloc, configs)?;
    let names = names_of(floor.alloc, configs, &backends)?;
    let console = Console::new(floor.config, &names, &floor.gate);
    let mut bells = bells;
    let mut seats = seats(rt, floor)?;
    answer_to_the_end(
        rt, floor, listener, &console, &mut seats, &mut bells, end, busy,
    );
    leave_all(rt, floor, seats);
    Ok(())
}

/// Answers one operator after another until the end is near, lets go of `busy`, and goes on until the end is here.
fn answer_to_the_end<R: Host, D: Seating<R>, G: SharedGate<R>>(
    rt: &R,
    floor: &Floor<'_, D, G>,
    listener: &CommandListener,
    console: &Console<'_, G>,
    seats: &mut [D::Seat],
    bells: &mut Bells<'_, R>,
    end: &End,
    busy: Sender<()>,
)
    requires { OpenInOrder console.now.config.backends (map D.Seat.Mover.backend seats.old) }
{
    answer_each(
        rt,
        floor,
        listener,
        console,
        seats,
        bells,
        end,
        &end.is_near,
    );
    drop(busy);
    answer_each(
        rt,
        floor,
        listener,
        console,
        seats,
        bells,
        end,
        &end.is_here,
    );
}

/// Answers one operator after another until `until` is set. The command `stop` asks all threads to end, and a second one cuts off open
/// requests.
fn answer_each<R: Host, D: Seating<R>, G: SharedGate<R>>(
    rt: &R,
    floor: &Floor<'_, D, G>,
    listener: &CommandListener,
    console: &Console<'_, G>,
    seats: &mut [D::Seat],
    bells: &mut Bells<'_, R>,
    end: &End,
    until: &AtomicBool,
)
    requires { OpenInOrder console.now.config.backends (map D.Seat.Mover.backend seats.old) }
    ensures { map D.Seat.Mover.backend seats.new ≡ map D.Seat.Mover.backend seats.old }
{
    let mut room = [0; ROOM];
    for _ in rt.forever() {
        let Some(stream) = listener.next_connection(rt, until) else {
            break;
        };
        let console = console.at(Moment::from_millis(millis_of(rt, floor)));
        let mut line = LineStream::new(rt, &end.is_near, stream);
        let next = serve_connection(rt, floor.alloc, &console, seats, bells, &mut line);
        if next == Next::Stop {
            floor.stop_or_cut(rt);
        }
        end_gently(rt, line.into_stream(), &mut room);
    }
}

/// The backends as the machine has them, which lend answers the names of their servers.
fn backends_of(alloc: Global, configs: &[BackendConfig]) -> Result<Vec<Backend>, AllocError>
    ensures { IfOk result (λ backends. AreBackendsOf configs.now backends.items) }
{
    let mut backends = Vec::with_capacity(alloc, configs.len())?;
    for config in configs {
        backends.push(backend_of(alloc, config)?)?;
    }
    Ok(backends)
}

/// The backends as answers name them.
fn names_of<'a>(
    alloc: Global,
    configs: &[BackendConfig],
    backends: &'a [Backend],
) -> Result<Vec<NamedBackend<'a>>, AllocError>
    requires { AreBackendsOf configs.now backends.now }
    ensures { IfOk result (λ names. AreNamesOf configs.now names.items) }
{
    let mut names = Vec::with_capacity(alloc, configs.len())?;
    let mut place = 0;
    while place < configs.len() {
        let named = named_backend(&configs[place], backends[place].servers());
        match names.push(named) {
            Ok(()) => place += 1,
            Err(_) => return Err(AllocError),
        }
    }
    Ok(names)
}

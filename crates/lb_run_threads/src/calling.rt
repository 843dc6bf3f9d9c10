//! Calling workers while those at the line are held by their requests.
use crate::threads::relay_on_call;
use crossbeam_channel::{Receiver, Sender};
use http_relay_lobby::WaitingLine;
use http_relay_work::Watch;
use lb_run_floor::{Desks, Floor, Host, Seating, SharedGate};
use std::alloc::AllocError;
use std::net::TcpStream;
use std::sync::atomic::Ordering;
use std::thread::{Builder, Scope};

/// The bytes of the stack of a worker on call: three times what a request takes at most, and memory only where it is used.
const STACK: usize = 524_288;

/// Watches the workers, and calls others if too few are at work, until no listener is left and no client waits, or no worker is left. The
/// workers that it made end after it: those that rest because no more calls come, the others by the end of the line.
pub(crate) fn call_workers<'s, E, R: Host, D: Seating<R> + Send + Sync, G: SharedGate<R>>(
    rt: &'s R,
    scope: &'s Scope<'s, E>,
    floor: &'s Floor<'s, D, G>,
    line: WaitingLine<TcpStream>,
    to: Sender<()>,
    calls: Receiver<()>,
) {
    let Ok(mut watch) = Watch::new(floor.alloc, &floor.roster, floor.config.relays()) else {
        floor.starve();
        return;
    };
    for _ in rt.forever() {
        let is_stopped = floor.stop.load(Ordering::SeqCst);
        if is_stopped && no_more_to_call_for(floor, &line) {
            break;
        }
        for _ in 0..watch.look(line.len()) {
            if floor.roster.call_resting() {
                let _ = to.try_send(rt, ());
            } else if make_one(rt, scope, floor, &line, &calls, &mut watch).is_err() {
                break;
            }
        }
        watch.wait(rt, !is_stopped);
    }
}

/// Whether, at a stop, no client waits and none will come, or no worker is left that could serve one.
fn no_more_to_call_for<D: Desks, G: Drop>(
    floor: &Floor<'_, D, G>,
    line: &WaitingLine<TcpStream>,
) -> bool {
    let no_more_come = floor.listeners.load(Ordering::SeqCst) == 0 && line.is_empty();
    no_more_come || floor.roster.is_empty()
}

/// Makes one worker on call more. The error is that there are as many as may be, or that there is no memory for it, or no thread.
fn make_one<'s, E, R: Host, D: Seating<R> + Send + Sync, G: SharedGate<R>>(
    rt: &'s R,
    scope: &'s Scope<'s, E>,
    floor: &'s Floor<'s, D, G>,
    line: &WaitingLine<TcpStream>,
    calls: &Receiver<()>,
    watch: &mut Watch<'_>,
) -> Result<(), AllocError> {
    let Some(place) = watch.next_place() else {
        return Err(AllocError);
    };
    let line = line.copy(floor.alloc)?;
    let calls = calls.clone()?;
    floor.roster.enter();
    let made = Builder::new().stack_size(STACK).spawn_scoped(
        scope,
        move || relay_on_call(rt, floor, line, place, calls),
    );
    if made.is_err() {
        floor.roster.leave();
        return Err(AllocError);
    }
    watch.add();
    Ok(())
}

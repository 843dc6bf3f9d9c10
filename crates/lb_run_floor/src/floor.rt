ghost use Rattle.lb_run_floor.specs.Places.{AreAt};

use crate::{Desks, Host, Reports};
use http_relay_work::Roster;
use lb_config::Config;
use std::alloc::{AllocError, Global};
use std::sync::Wait;
use std::sync::atomic::{AtomicBool, AtomicUsize, Ordering};
use std::thread;
use std::time::{Duration, Instant};

/// How many milliseconds pass between two looks at the flag.
const TICK_MILLIS: u64 = 100;

/// What all threads of the balancer share.
#[derive(Drop)]
pub struct Floor<'a, D: Desks, G: Drop> {
    pub alloc: Global,
    pub config: &'a Config,
    /// The desks of the configuration's backends, in their order.
    pub desks: D,
    pub reports: Reports,
    /// In which workers note whether they have a request.
    pub roster: Roster,
    /// How many listeners may hand on clients.
    pub listeners: AtomicUsize,
    /// Is set where the balancer ends.
    pub stop: AtomicBool,
    /// Is set where open requests are cut off.
    pub cut: AtomicBool,
    /// Is set where a thread had not memory enough to begin.
    pub starved: AtomicBool,
    /// The moment from which the clocks of all threads count.
    pub start: Instant,
    /// What workers, planners and operators' threads pass at their points.
    pub gate: G,
    pub ghost complete: { AreAt config.now.backends (D.opened desks) },
}

impl<'a, D: Desks, G: Drop> Floor<'a, D, G> {
    /// A floor on which no thread is yet. The only error is out of memory.
    pub fn new(
        alloc: Global,
        config: &'a Config,
        desks: D,
        start: Instant,
        gate: G,
    ) -> Result<Self, AllocError>
        requires { AreAt config.now.backends (D.opened desks) }
    {
        let roster = Roster::new(alloc, config.relays())?;
        Ok(Floor {
            alloc,
            config,
            desks,
            reports: Reports::new(),
            roster,
            listeners: AtomicUsize::new(0),
            stop: AtomicBool::new(false),
            cut: AtomicBool::new(false),
            starved: AtomicBool::new(false),
            start,
            gate,
        })
    }

    /// Asks all threads to end.
    pub fn stop(&self) {
        self.stop.store(true, Ordering::SeqCst);
        self.roster.ring();
    }

    /// Asks all threads to end. If they have been asked before, all open requests are cut off.
    pub fn stop_or_cut<R: Wait>(&self, rt: &R) {
        if self.stop.swap(true, Ordering::SeqCst) {
            self.cut.store(true, Ordering::SeqCst);
            self.roster.cut_off(rt);
        }
        self.roster.ring();
    }

    /// Ends the balancer, since a thread can't begin.
    pub fn starve(&self) {
        self.starved.store(true, Ordering::SeqCst);
        self.stop();
    }

    /// Whether a thread couldn't begin.
    pub fn is_starved(&self) -> bool {
        self.starved.load(Ordering::SeqCst)
    }

    /// Waits until a thread ends the balancer.
    pub fn wait_for_end<R: Host>(&self, rt: &R) {
        for _ in rt.forever() {
            if self.stop.load(Ordering::SeqCst) {
                break;
            }
            thread::sleep(rt, Duration::from_millis(TICK_MILLIS));
        }
    }
}

//! A planner whom clients overtake while the balancer runs.
use crate::farm::{Sockets, answer_to, free_port, local, originate};
use http_relay_listen::listen;
use lb_config::{Config, read_config};
use lb_desk_ports::{Gate, Point};
use lb_run::{Host, TextFiles, run_config_past};
use lb_types::Counted;
use std::alloc::Global;
use std::env::Env;
use std::fs::Files;
use std::marker::PhantomData;
use std::net::OpenListener;
use std::sync::atomic::{AtomicBool, AtomicUsize, Ordering};
use std::test::Fail;
use std::thread;
use std::thread::join;
use std::time::{Clock, Duration};

const ANSWER: &[u8] = b"HTTP/1.0 200 OK\r\nContent-Length: 1\r\n\r\na";

const FROM_K1: &[u8] = b"GET / HTTP/1.1\r\nHost: x\r\nx-id: k1\r\n\r\n";

// Clients that are new to the balancer.
const NEWCOMERS: [&[u8]; 2] = [
    b"GET / HTTP/1.1\r\nHost: x\r\nx-id: k2\r\n\r\n",
    b"GET / HTTP/1.1\r\nHost: x\r\nx-id: k3\r\n\r\n",
];

// How many milliseconds somebody waits for the other at most.
const MOST_WAIT: u32 = 5000;

// The events of which no other thread may come in between, by their words, and how their lines end. Each new pin makes the version one
// more, and so does the drain.
const STEPS: &[(&str, &str)] = &[
    ("serve", "-> served a made"),
    ("set", "-> done"),
    ("snapshot", "-> sheet version 2 pins 1"),
    ("serve", "-> served b made"),
    ("install", "-> 70 Stale"),
    ("snapshot", "-> sheet version 3 pins 2"),
    ("serve", "-> served b made"),
    ("install", "-> 70 Stale"),
    ("snapshot", "-> sheet version 4 pins 3"),
    ("install", "-> installed pins 3 unplaced 0 moved 1"),
];

/// What the meeting counts.
#[derive(Drop)]
struct Counts {
    /// How often the planner has come.
    came: AtomicUsize,
    /// How many newcomers were answered.
    served: AtomicUsize,
}

/// Where the planner, with a plan in its hand, waits until one more newcomer was answered.
#[derive(Clone, Copy)]
struct Meeting<'a> {
    counts: &'a Counts,
}

impl<R: Clock> Gate<R> for Meeting<'_> {
    fn at(&self, rt: &R, point: Point) {
        if point == Point::Planned {
            let turn = self.counts.came.fetch_add(1, Ordering::SeqCst);
            wait_above(rt, &self.counts.served, turn);
        }
    }
}

/// Waits until the count is above this number, but not for ever: a planner that holds up clients fails the test, and doesn't hang it.
fn wait_above<R: Clock>(rt: &R, count: &AtomicUsize, number: usize) {
    for _ in 0..MOST_WAIT {
        if count.load(Ordering::SeqCst) > number {
            break;
        }
        thread::sleep(rt, Duration::from_millis(1));
    }
}

/// Each newcomer asks once the planner has come one time more.
fn overtake<R: Host>(rt: &R, alloc: Global, clients: u16, counts: &Counts, _sockets: Sockets) {
    for (turn, request) in NEWCOMERS.iter().enumerate() {
        wait_above(rt, &counts.came, turn);
        if answer_to(rt, alloc, clients, request).is_some() {
            counts.served.fetch_add(1, Ordering::SeqCst);
        }
    }
}

/// What the balancer answers an operator.
#[derive(Drop)]
struct Told {
    planned: Vec<u8>,
    journal: Vec<u8>,
}

/// A client gets a pin, then its server drains, and while that is planned others come.
fn day<R: Host>(
    rt: &R,
    alloc: Global,
    clients: u16,
    operators: u16,
    counts: &Counts,
    sockets: Sockets,
) -> Option<Told> {
    answer_to(rt, alloc, clients, FROM_K1)?;
    let drain = b"set server web/a state drain; plan backend web\n";
    let (planned, _) = join(
        rt,
        || answer_to(rt, alloc, operators, drain),
        || overtake(rt, alloc, clients, counts, sockets),
    );
    Some(Told {
        planned: planned?,
        journal: answer_to(rt, alloc, operators, b"show journal web\n")?,
    })
}

/// The day, and the end of the balancer, however it went.
fn day_and_end<R: Host>(
    rt: &R,
    alloc: Global,
    clients: u16,
    operators: u16,
    counts: &Counts,
    sockets: Sockets,
) -> Option<Told> {
    let told = day(rt, alloc, clients, operators, counts, sockets);
    answer_to(rt, alloc, operators, b"stop\n")?;
    told
}

fn run<R: Host + Files + TextFiles + Env>(
    rt: &R,
    alloc: Global,
    config: &Config,
    counts: &Counts,
    _sockets: Sockets,
) -> (bool, Vec<u8>) {
    let mut out = Counted::new(Vec::new(alloc));
    let done = run_config_past(rt, alloc, config, Meeting { counts }, &mut out);
    (done.is_ok(), out.into_inner())
}

/// Whether the journal's events, except for those that clients' connections make beside, are the expected ones.
fn has_steps(journal: &str) -> bool {
    let mut place = 0;
    for line in journal.lines() {
        let event = line.split(' ').nth(1).unwrap_or("");
        // The answer ends with an empty line.
        if matches!(event, "" | "expire" | "open" | "close") {
            continue;
        }
        match STEPS.get(place) {
            Some((word, ending)) if *word == event && line.ends_with(*ending) => place += 1,
            _ => return false,
        }
    }
    place == STEPS.len()
}

// Two plans are overtaken by new pins, and are stale. The third of three tries is made while all others wait, and is installed.
#[test]
fn a_planner_is_overtaken_twice_and_then_not(rt: HostRuntime) -> Result<(), Fail> {
    let alloc = rt.alloc();
    let origin = listen(&rt, local(0))?;
    let clients = free_port(&rt)?;
    let operators = free_port(&rt)?;
    let server = origin.local_addr()?.port();
    let text = format!(in alloc;
        "global\n  stats socket 127.0.0.1:{operators}\n  tune.relays 4\n  tune.tries 3\ndefaults\n  timeout client 10s\n  timeout connect 2s\nlisten web\n  bind 127.0.0.1:{clients}\n  stick-table type string size 10\n  stick on hdr(x-id)\n  server a 127.0.0.1:{server} maxpins 5\n  server b 127.0.0.1:{server} maxpins 5\n"
    )?;
    let config = read_config(alloc, text.as_bytes())
        .ok()
        .ok_or("a configuration")?;
    let counts = Counts {
        came: AtomicUsize::new(0),
        served: AtomicUsize::new(0),
    };
    let end = AtomicBool::new(false);
    let sockets: Sockets = PhantomData;
    let (_, (ran, told)) = join(
        &rt,
        || originate(&rt, origin, ANSWER, &end, sockets),
        || {
            let both = join(
                &rt,
                || run(&rt, alloc, &config, &counts, sockets),
                || day_and_end(&rt, alloc, clients, operators, &counts, sockets),
            );
            end.store(true, Ordering::SeqCst);
            both
        },
    );
    let told = told.ok_or("an answer for the operator")?;
    assert_eq!(rt;
        told.planned.as_slice(),
        b"\npins 3 unplaced 0 moved 1\n\n".as_slice()
    );
    let journal = str::from_utf8(&told.journal)?;
    assert!(rt; has_steps(journal), "{journal}");
    // Three requests of four events, the drain, and three sheets and three plans.
    assert!(rt; ran.0);
    assert_eq!(rt;
        ran.1.as_slice(),
        b"closed web events 19 rising yes\n".as_slice()
    );
    Ok(())
}

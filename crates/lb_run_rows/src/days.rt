use crate::farm::{Sockets, ask, free_port, local, originate};
use http_relay_listen::listen;
use lb_config::{Config, read_config};
use lb_run::{Host, TextFiles, run_config, run_text};
use lb_types::Counted;
use std::alloc::Global;
use std::env::Env;
use std::fs::Files;
use std::marker::PhantomData;
use std::net::{OpenListener, TcpListener};
use std::sync::atomic::{AtomicBool, Ordering};
use std::test::Fail;
use std::thread::join;

/// A client that names itself.
const FROM_K1: &[u8] = b"GET / HTTP/1.1\r\nHost: x\r\nx-id: k1\r\n\r\n";

const FROM_A: &[u8] = b"HTTP/1.0 200 OK\r\nContent-Length: 1\r\n\r\na";

const FROM_B: &[u8] = b"HTTP/1.0 200 OK\r\nContent-Length: 1\r\n\r\nb";

// The ports of a farm: where clients connect, where operators do, and the two origins.
#[derive(Drop)]
struct Ports {
    clients: u16,
    operators: u16,
    a: u16,
    b: u16,
}

fn config_text(alloc: Global, ports: &Ports) -> Result<String, Fail> {
    let Ports {
        clients,
        operators,
        a,
        b,
    } = ports;
    Ok(format!(in alloc;
        "global\n  stats socket 127.0.0.1:{operators}\n  tune.relays 4\ndefaults\n  timeout client 10s\n  timeout connect 2s\nlisten web\n  bind 127.0.0.1:{clients}\n  stick-table type string size 10\n  stick on hdr(x-id)\n  server a 127.0.0.1:{a} maxpins 5\n  server b 127.0.0.1:{b} maxpins 5\n"
    )?)
}

/// What came back for the requests and the operators' lines of a day.
#[derive(Drop)]
struct Day {
    first: Vec<u8>,
    second: Vec<u8>,
    drained: Vec<u8>,
    third: Vec<u8>,
    stopped: Vec<u8>,
}

/// Two requests, a drain with a plan, a third request, and the end.
fn clients_day<R: Host>(
    rt: &R,
    alloc: Global,
    ports: &Ports,
    _sockets: Sockets,
) -> Result<Day, Fail> {
    let drain = b"set server web/a state drain; plan backend web\n";
    Ok(Day {
        first: ask(rt, alloc, ports.clients, FROM_K1)?,
        second: ask(rt, alloc, ports.clients, FROM_K1)?,
        drained: ask(rt, alloc, ports.operators, drain)?,
        third: ask(rt, alloc, ports.clients, FROM_K1)?,
        stopped: ask(rt, alloc, ports.operators, b"stop\n")?,
    })
}

fn run<R: Host + Files + TextFiles + Env>(
    rt: &R,
    alloc: Global,
    config: &Config,
    _sockets: Sockets,
) -> (bool, Vec<u8>) {
    let mut out = Counted::new(Vec::new(alloc));
    let done = run_config(rt, alloc, config, &mut out);
    (done.is_ok(), out.into_inner())
}

// A client stays at its server, a drain with a plan moves it, and at the end each event has its receipt: four for each request, one for
// the drain, two for the plan.
#[test]
fn a_client_stays_until_its_server_drains(rt: HostRuntime) -> Result<(), Fail> {
    let alloc = rt.alloc();
    let a = listen(&rt, local(0))?;
    let b = listen(&rt, local(0))?;
    let ports = Ports {
        clients: free_port(&rt)?,
        operators: free_port(&rt)?,
        a: a.local_addr()?.port(),
        b: b.local_addr()?.port(),
    };
    let text = config_text(alloc, &ports)?;
    let config = read_config(alloc, text.as_bytes())
        .ok()
        .ok_or("a configuration")?;
    let end = AtomicBool::new(false);
    let sockets: Sockets = PhantomData;
    let (_, (_, (ran, day))) = join(
        &rt,
        || originate(&rt, a, FROM_A, &end, sockets),
        || {
            join(
                &rt,
                || originate(&rt, b, FROM_B, &end, sockets),
                || {
                    let both = join(
                        &rt,
                        || run(&rt, alloc, &config, sockets),
                        || clients_day(&rt, alloc, &ports, sockets),
                    );
                    end.store(true, Ordering::SeqCst);
                    both
                },
            )
        },
    );
    let (is_ok, told) = ran;
    let day = day?;
    assert_eq!(rt; day.first.as_slice(), FROM_A);
    assert_eq!(rt; day.second.as_slice(), FROM_A);
    assert_eq!(rt;
        day.drained.as_slice(),
        b"\npins 1 unplaced 0 moved 1\n\n".as_slice()
    );
    assert_eq!(rt; day.third.as_slice(), FROM_B);
    assert_eq!(rt; day.stopped.as_slice(), b"\n".as_slice());
    assert!(rt; is_ok);
    assert_eq!(rt;
        told.as_slice(),
        b"closed web events 15 rising yes\n".as_slice()
    );
    Ok(())
}

// An address that somebody else has is named, and nothing runs.
#[test]
fn an_address_that_is_taken_is_named(rt: HostRuntime) -> Result<(), Fail> {
    let alloc = rt.alloc();
    let taken = listen(&rt, local(0))?;
    let port = taken.local_addr()?.port();
    let text = format!(in alloc; "listen web\n  bind 127.0.0.1:{port}\n  server a 127.0.0.1:1\n")?;
    let mut out = Counted::new(Vec::new(alloc));
    let mut err = Counted::new(Vec::new(alloc));
    let done = run_text(&rt, alloc, text.as_bytes(), &mut out, &mut err);
    let told = format!(in alloc; "cannot bind 127.0.0.1:{port}\n")?;
    assert!(rt; matches!(done, Ok(false)) && out.into_inner().is_empty());
    assert_eq!(rt; err.into_inner().as_slice(), told.as_bytes());
    Ok(())
}

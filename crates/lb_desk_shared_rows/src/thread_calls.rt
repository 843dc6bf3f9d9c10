//! What a thread does at a shared desk.
ghost use Rattle.std.specs.Prelude.{◌≡◌};

use crate::farms::request;
use crate::thread_farms::Hasher;
use lb_desk_model::{Entry, Event, Reply, ServedAs};
use lb_desk_ports::{Opening, Refused, Shut};
use lb_desk_shared::{Naming, SharedDesk};
use lb_desk_tie::Pass;
use lb_types::ServerId;
use std::alloc::Global;
use std::process::Abort;
use std::sync::Wait;
use std::time::Clock;

/// A whole request with this key: a server is asked for, and a connection to it is opened and shut, which is never refused. How it
/// was served, or none where it wasn't.
pub(crate) fn request_once<B: Naming, R: Wait + Clock + Abort>(
    rt: &R,
    alloc: Global,
    desk: &SharedDesk<Hasher, B>,
    pass: &mut Pass<Entry, B>,
    key: &'static str,
) -> Result<Option<ServedAs>, Refused>
    requires { pass.old.keeper ≡ desk.now }
    ensures { pass.new.keeper ≡ pass.old.keeper }
{
    let request = request(alloc, 0, key)?;
    let told = desk.tell(rt, pass, Event::Serve(request))?;
    let Some((server, how)) = served(&told.reply) else {
        return Ok(None);
    };
    let opening = desk.open(rt, pass, server)?;
    if let Opening::Opened(slot) = opening {
        let shut = desk.shut(rt, pass, slot)?;
        assert!(rt; shut == Shut::Closed, "an open connection ends");
    }
    Ok(Some(how))
}

/// The server of a request that was served, and how.
fn served(reply: &Reply) -> Option<(ServerId, ServedAs)> {
    match reply {
        Reply::Served(server, how) => Some((*server, *how)),
        _ => None,
    }
}

/// A caller of its own: two whole requests, and a plan between them.
pub(crate) fn day<B: Naming, R: Wait + Clock + Abort>(
    rt: &R,
    alloc: Global,
    desk: &SharedDesk<Hasher, B>,
    keys: (&'static str, &'static str),
) -> Result<Pass<Entry, B>, Refused> {
    let mut pass = desk.enter(rt);
    request_once(rt, alloc, desk, &mut pass, keys.0)?;
    desk.plan_now(rt, &mut pass)?;
    request_once(rt, alloc, desk, &mut pass, keys.1)?;
    Ok(pass)
}

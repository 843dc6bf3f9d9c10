//! Desks are closed, and their journals judged.
ghost use Rattle.std.specs.Prelude.{◌≡◌};
ghost use Rattle.lb_desk_tie.specs.Receipts.{AreOf};

use crate::desks::JOURNAL;
use crate::thread_calls::request_once;
use crate::thread_farms::{Hasher, desk_of, farm};
use lb_desk_model::{Backend, Entry, ServedAs};
use lb_desk_ports::{Opening, Shut};
use lb_desk_shared::{CloseFault, Closing, Naming, SharedDesk, StillOut};
use lb_desk_tie::{Opened, Pass};
use lb_types::ServerId;
use std::alloc::Global;
use std::marker::Brand;
use std::process::Abort;
use std::sync::Wait;
use std::test::Fail;
use std::time::Clock;

/// Closes the desk with these two passes.
pub(crate) fn close_with<B: Naming>(
    rt: &impl Abort,
    alloc: Global,
    desk: SharedDesk<Hasher, B>,
    one: Pass<Entry, B>,
    two: Pass<Entry, B>,
) -> Result<Closing, Fail> {
    assert_eq!(rt; one.keeper(), desk.number(), "a pass of this desk");
    assert_eq!(rt; two.keeper(), desk.number(), "a pass of this desk");
    let passes = vec![in alloc; one, two]?;
    match desk.close(passes) {
        Ok(closing) => Ok(closing),
        Err(out) => panic!(rt; "not closed: {}", out.fault.number()),
    }
}

/// A backend that takes the journal's events again, one after another, gives the same replies.
pub(crate) fn judge(
    rt: &impl Abort,
    alloc: Global,
    backend: &Backend,
    closing: &Closing,
) -> Result<(), Fail> {
    let fault = lb_desk_tried::judge(alloc, backend, closing)?;
    assert_eq!(rt; fault, None, "a journal that is run again");
    Ok(())
}

/// Closes a desk too early, twice, and then in time.
fn close_thrice<B: Naming, R: Wait + Clock + Abort>(
    rt: &R,
    alloc: Global,
    opened: Opened<Entry>,
    backend: &Backend,
) -> Result<(), Fail>
    requires table { opened ≡ B.table_of 0 }
    requires opening { B.opening 0 ≡ backend.now }
    requires size { B.journal_size 0 ≡ JOURNAL }
{
    let desk = desk_of::<B>(alloc, opened, 0, backend)?;
    let mut pass = desk.enter(rt);
    assert_eq!(rt;
        request_once(rt, alloc, &desk, &mut pass, "x")?,
        Some(ServedAs::Made)
    );
    assert_eq!(rt;
        request_once(rt, alloc, &desk, &mut pass, "x")?,
        Some(ServedAs::Kept)
    );
    let desk = close_with_a_pass_out(rt, alloc, desk)?;
    assert_eq!(rt; pass.keeper(), desk.number(), "a pass of this desk");
    assert_eq!(rt;
        desk.entries(rt, &mut pass, alloc)?.entries.len(),
        6,
        "nothing is lost"
    );
    assert_eq!(rt; desk.rows(rt, &mut pass, alloc)?.len(), 1, "one pin");
    let closing = close_with_a_connection_open(rt, alloc, desk, pass)?;
    judge(rt, alloc, backend, &closing)
}

/// Closes the desk without its pass, which it refuses, and lets it go on.
fn close_with_a_pass_out<B: Naming, R: Abort>(
    rt: &R,
    alloc: Global,
    desk: SharedDesk<Hasher, B>,
) -> Result<SharedDesk<Hasher, B>, Fail> {
    let Err(out) = desk.close(Vec::new(alloc)) else {
        panic!(rt; "closed with a pass out");
    };
    assert_eq!(rt; out.fault, CloseFault::PassesOut, "a pass is out");
    Ok(SharedDesk::of_tied(out.desk))
}

/// Closes the desk with a connection open, which it refuses, and then once that has ended.
fn close_with_a_connection_open<B: Naming, R: Wait + Clock + Abort>(
    rt: &R,
    alloc: Global,
    desk: SharedDesk<Hasher, B>,
    pass: Pass<Entry, B>,
) -> Result<Closing, Fail>
    requires { pass.keeper ≡ desk }
{
    let mut pass = pass;
    let mut passes = Vec::with_capacity(alloc, 1)?;
    let Opening::Opened(slot) = desk.open(rt, &mut pass, ServerId::new(1))? else {
        panic!(rt; "not opened");
    };
    passes.push_reserved(pass);
    let out = refused_for_a_connection(rt, desk, passes);
    let desk = SharedDesk::of_tied(out.desk);
    let mut passes = out.passes;
    let Some(mut pass) = passes.pop() else {
        panic!(rt; "no pass comes back");
    };
    assert_eq!(rt; pass.keeper(), desk.number(), "the same pass");
    assert_eq!(rt; slot.desk(), desk.number(), "the same desk");
    let shut = desk.shut(rt, &mut pass, slot)?;
    assert_eq!(rt; shut, Shut::Closed, "the connection ends");
    let Ok(closing) = desk.close(vec![in alloc; pass]?) else {
        panic!(rt; "not closed");
    };
    Ok(closing)
}

/// Closes the desk with its passes, which it refuses since a connection is open.
fn refused_for_a_connection<B: Naming, R: Abort>(
    rt: &R,
    desk: SharedDesk<Hasher, B>,
    passes: Vec<Pass<Entry, B>>,
) -> StillOut<Hasher, B>
    requires { AreOf desk passes.items }
{
    let Err(out) = desk.close(passes) else {
        panic!(rt; "closed with a connection open");
    };
    assert_eq!(rt; out.fault, CloseFault::SlotsOut, "a connection is open");
    out
}

#[test]
fn a_desk_is_closed_once_all_is_back(rt: HostRuntime) -> Result<(), Fail> {
    let alloc = rt.alloc();
    let opened = Opened::new(alloc)?;
    let backend = farm(alloc)?;
    close_thrice::<Brand, _>(&rt, alloc, opened, &backend)
}

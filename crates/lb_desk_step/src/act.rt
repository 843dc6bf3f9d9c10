ghost use Rattle.std.specs.Prelude.{◌≡◌, ◌+◌, ◌≤◌, true, IfOk, OnErr, IsErr};
ghost use Rattle.lb_desk_model.specs.Seen.{Steps};
ghost use Rattle.lb_desk_core.specs.Core.{IsReached};
ghost use Rattle.lb_desk_step.specs.Acts.{CanCount, Connects};
ghost use Rattle.lb_desk_step.specs.Desk.{may_take_memory};

use lb_desk_core::Core;
use lb_desk_model::{Event, Reply};
use std::alloc::{AllocError, Global};
use std::hash::BuildHasher;

/// Takes the event to the core, and answers the reply twice: for the caller and for the journal. Where memory is wanting, nothing
/// has changed. The event is lent as it is needed, so that no key is copied, and is afterwards as it was.
pub(crate) fn answer<S: BuildHasher>(
    core: &mut Core<S>,
    alloc: Global,
    event: &mut Event,
) -> Result<(Reply, Reply), AllocError>
    requires numbers { CanCount core.old event.old }
    requires reached { IsReached core.old.shown }
    ensures steps { IfOk result
        (λ replies. Steps core.old.shown event.old replies.0 core.new.shown) }
    ensures copy { IfOk result (λ replies. replies.1 ≡ replies.0) }
    ensures err { OnErr result (core.new ≡ core.old) }
    ensures memory { IsErr result → may_take_memory event.old ≡ true }

    // What no reply shows.
    ensures connections { IfOk result
        (λ replies. Connects core.old.shown event.old replies.0 core.new.shown) }
    ensures uses { core.new.uses ≤ core.old.uses + 1 }
    ensures same { event.new ≡ event.old }
{
    let reply = act(core, alloc, event)?;
    // Only the copy of a sheet can fail, and after a sheet the core is as it was.
    let copy = reply.clone()?;
    Ok((reply, copy))
}

fn act<S: BuildHasher>(
    core: &mut Core<S>,
    alloc: Global,
    event: &mut Event,
) -> Result<Reply, AllocError>
    requires { CanCount core.old event.old }
    ensures steps { IfOk result
        (λ reply. Steps core.old.shown event.old reply core.new.shown) }
    ensures connections { IfOk result
        (λ reply. Connects core.old.shown event.old reply core.new.shown) }
    ensures snapshot { event.old ≡ Event.Snapshot → core.new ≡ core.old }
    ensures uses { core.new.uses ≤ core.old.uses + 1 }
    ensures same { event.new ≡ event.old }
    ensures memory { IsErr result → may_take_memory event.old ≡ true }
    ensures err { OnErr result (core.new ≡ core.old) }
{
    match event {
        Event::Serve(request) => core.serve(request),
        Event::Set(set) => core.set(&*set),
        Event::Clear(name) => Ok(core.clear(&*name)),
        Event::Open(server) => Ok(core.open_connection(*server)),
        Event::Close(server) => Ok(core.close_connection(*server)),
        Event::Expire(now) => Ok(core.expire(*now)),
        Event::Check(server, ok) => Ok(core.check(*server, *ok)),
        Event::Command(change) => Ok(core.command(*change)),
        Event::Snapshot => core.snapshot(alloc),
        Event::Install(plan) => core.install(alloc, &**plan),
    }
}

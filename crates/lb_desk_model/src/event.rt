ghost use Rattle.std.specs.Prelude.{◌≤◌};
ghost use Rattle.lb_types.specs.declared.limits.TheConstants.{MAX_COST};

use crate::{RuleList, Shared};
use dual_cert_plan::Plan;
use lb_types::{Moment, ServerId};
use pin_set::{PinId, PinKey};
use server_state::Change;
use std::alloc::AllocError;

/// What a request asks of its backend.
#[derive(Debug, Drop, PartialEq, Eq)]
pub struct Request {
    /// What the backend's `stick on` pattern found, if it found something.
    pub key: Option<PinKey>,
    /// The servers of the matching `use-server` rules.
    pub rules: RuleList,
    /// What it costs to move the pin, 1 to 1000. It is read where a pin is made.
    pub cost: u16,
    /// When the request came.
    pub moment: Moment,
    pub ghost cost_from: { 1 ≤ cost },
    pub ghost cost_to: { cost ≤ MAX_COST },
}

impl Clone for Request {
    ghost use Rattle.std.specs.Prelude.{◌≡◌};

    ghost is_clone = { λ request copy. copy ≡ request };

    /// The same request, with the bytes of its key and its rules in memory of its own.
    fn clone(&self) -> Result<Request, AllocError> {
        Ok(Request {
            key: self.key.clone()?,
            rules: self.rules.clone()?,
            cost: self.cost,
            moment: self.moment,
        })
    }
}

/// A pin that is to stand at a server.
#[derive(Debug, Drop, PartialEq, Eq)]
pub struct SetPin {
    /// The pin's name: its key, and the wanted servers.
    pub name: PinId,
    /// Where its session is.
    pub server: ServerId,
    /// What it costs to move the pin, 1 to 1000. It is read where the pin is made.
    pub cost: u16,
    /// When its session was seen there.
    pub moment: Moment,
    pub ghost cost_from: { 1 ≤ cost },
    pub ghost cost_to: { cost ≤ MAX_COST },
}

impl Clone for SetPin {
    ghost use Rattle.std.specs.Prelude.{◌≡◌};

    ghost is_clone = { λ set copy. copy ≡ set };

    /// The same, with the bytes of the key in memory of its own.
    fn clone(&self) -> Result<SetPin, AllocError> {
        Ok(SetPin {
            name: self.name.clone()?,
            server: self.server,
            cost: self.cost,
            moment: self.moment,
        })
    }
}

/// What a backend is asked for. Each is one step of its machine.
#[derive(Debug, Drop, PartialEq, Eq)]
pub enum Event {
    /// A server for a request.
    Serve(Request),
    /// That a pin stands at a server.
    Set(SetPin),
    /// That the pin of this name goes.
    Clear(PinId),
    /// A connection to the server.
    Open(ServerId),
    /// The end of a connection to the server.
    Close(ServerId),
    /// That pins go which weren't used for long.
    Expire(Moment),
    /// The result of one check of the server: whether it succeeded.
    Check(ServerId, bool),
    /// An operator's change.
    Command(Change),
    /// The sheet that a planner needs.
    Snapshot,
    /// The moves of a plan.
    Install(Shared<Plan>),
}

impl Clone for Event {
    ghost use Rattle.std.specs.Prelude.{◌≡◌};
    ghost use Rattle.lb_desk_model.specs.Copies.{IsPlainEvent};

    ghost is_clone = { λ event copy. copy ≡ event };

    ghost is_infallible = { IsPlainEvent };

    /// The same event. It costs a copy of a request or of a pin's key, or one owner more of a plan; for all others it allocates
    /// nothing.
    fn clone(&self) -> Result<Event, AllocError> {
        Ok(match self {
            Event::Serve(request) => Event::Serve(request.clone()?),
            Event::Set(set) => Event::Set(set.clone()?),
            Event::Clear(name) => Event::Clear(name.clone()?),
            Event::Open(server) => Event::Open(*server),
            Event::Close(server) => Event::Close(*server),
            Event::Expire(now) => Event::Expire(*now),
            Event::Check(server, ok) => Event::Check(*server, *ok),
            Event::Command(change) => Event::Command(*change),
            Event::Snapshot => Event::Snapshot,
            Event::Install(plan) => Event::Install(plan.clone()?),
        })
    }
}

ghost use Rattle.std.specs.Prelude.{◌≡◌, ◌<◌, IfOk, length};
ghost use Rattle.std.specs.Option.{option_copied};
ghost use Rattle.lb_routes.specs.RequestsOf.{AsksAt, IsPinKey};

use lb_acl::{Head, StickOn, designated, pin_cost, pin_key};
use lb_config::BackendConfig;
use lb_desk_model::{Request, RuleList};
use lb_types::Moment;
use pin_set::PinKey;
use std::alloc::{AllocError, Global};

/// What the backend at this place is asked for the head.
pub(crate) fn request_of(
    alloc: Global,
    backends: &[BackendConfig],
    place: usize,
    head: &Head<'_>,
    moment: Moment,
) -> Result<Request, AllocError>
    requires { place < length backends.now }
    ensures asks { IfOk result (AsksAt backends.now place head.now) }
    ensures moment { IfOk result (λ request. request.moment ≡ moment) }
{
    let rules = backends[place].rules();
    let key = key_of(alloc, rules.stick_on(), head)?;
    let servers = designated(alloc, rules.use_servers(), head)?;
    Ok(Request {
        key,
        rules: RuleList::new(servers),
        cost: pin_cost(rules.pin_costs(), head),
        moment,
    })
}

fn key_of(
    alloc: Global,
    pattern: Option<&StickOn>,
    head: &Head<'_>,
) -> Result<Option<PinKey>, AllocError>
    ensures { IfOk result (λ key. IsPinKey (option_copied pattern.entry) head.now key) }
{
    match pattern {
        Some(pattern) => pin_key(alloc, pattern, head),
        None => Ok(None),
    }
}

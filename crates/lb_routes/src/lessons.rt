ghost use Rattle.std.specs.Prelude.{◌≡◌, ◌<◌, length};
ghost use Rattle.lb_routes.specs.RequestsOf.{lesson_at, lesson_of};

use http_relay_talk::Lesson;
use lb_acl::StickOn;
use lb_config::BackendConfig;
use lb_desk_model::Request;
use lb_desk_pick::set_of;
use set_cookie::learns;
use std::alloc::Global;

/// What the answer to the request may teach the backend at this place.
pub(crate) fn lesson_at<'a>(
    alloc: Global,
    backends: &'a [BackendConfig],
    place: usize,
    request: &Request,
) -> Option<Lesson<'a>>
    requires { place < length backends.now }
    ensures { result ≡ lesson_at backends.now place request.now }
{
    let pattern = backends[place].rules().stick_on()?;
    lesson_of(alloc, pattern, request)
}

/// What the answer to the request may teach where pins have keys by this pattern.
fn lesson_of<'a>(alloc: Global, pattern: &'a StickOn, request: &Request) -> Option<Lesson<'a>>
    ensures { result ≡ lesson_of request.now pattern.now }
{
    if !learns(&pattern.sample) {
        return None;
    }
    let want = set_of(request.rules.servers());
    Some(Lesson::new(alloc, pattern, want, request.cost, request.moment))
}

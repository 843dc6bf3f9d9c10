ghost use Rattle.std.specs.Prelude.{◌≡◌, ◌≤◌};
ghost use Rattle.lb_desk_step.specs.Acts.{closed_by, opened_by};

use lb_desk_model::{Event, Reply};

/// How many connections the event opened, with this reply.
pub(crate) fn opened_by(event: &Event, reply: &Reply) -> u64
    ensures exact { result ≡ opened_by event.now reply.now }
    ensures one { result ≤ 1 }
{
    match (event, reply) {
        (Event::Open(_), Reply::Opened) => 1,
        _ => 0,
    }
}

/// How many it ended.
pub(crate) fn closed_by(event: &Event, reply: &Reply) -> u64
    ensures { result ≡ closed_by event.now reply.now }
{
    match (event, reply) {
        (Event::Close(_), Reply::Closed) => 1,
        _ => 0,
    }
}

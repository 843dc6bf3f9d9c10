ghost use Rattle.std.specs.Prelude.{◌≡◌, false, IfSome, IsNone};
ghost use Rattle.lb_desk_ports.specs.Ports.{opening_reply, shut_reply};
ghost use Rattle.lb_desk_shared.specs.Replies.{IfOpen, answers_close, answers_open};

use crate::slot::Slot;
use lb_desk_model::{Refusal, Reply};
use lb_desk_ports::{Opening, Shut};
use lb_types::ServerId;

/// What the reply says to a request for a connection to the server, with the slot of the connection if one is open. None if no such
/// request is replied to so.
pub(crate) fn opening_of(reply: &Reply, desk: u64, server: ServerId) -> Option<Opening<Slot>>
    ensures reply { IfSome result (λ opening. opening_reply opening ≡ reply.now) }
    ensures desk { IfSome result (λ opening. IfOpen opening (λ slot. slot.desk ≡ desk)) }
    ensures server { IfSome result (λ opening. IfOpen opening (λ slot. slot.server ≡ server)) }
    ensures none { IsNone result → answers_open reply.now ≡ false }
{
    match reply {
        Reply::Opened => Some(Opening::Opened(Slot { desk, server })),
        Reply::Refused(Refusal::Full) => Some(Opening::Full),
        Reply::Refused(Refusal::NotServing) => Some(Opening::NotServing),
        _ => None,
    }
}

/// What the reply says to the end of a connection. None if no such end is replied to so.
pub(crate) fn shut_of(reply: &Reply) -> Option<Shut>
    ensures reply { IfSome result (λ shut. shut_reply shut ≡ reply.now) }
    ensures none { IsNone result → answers_close reply.now ≡ false }
{
    match reply {
        Reply::Closed => Some(Shut::Closed),
        Reply::Refused(Refusal::NotOpen) => Some(Shut::NotOpen),
        _ => None,
    }
}

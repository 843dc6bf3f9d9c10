ghost use Rattle.std.specs.Prelude.{◌≡◌, [], ℕ, List, Option};
ghost use Rattle.http_relay_dial.specs.Dials.{Talk, talk_of};
ghost use Rattle.http_relay_exchange.specs.Exchanges.{CopiesBack};
ghost use Rattle.http_relay_exchange.specs.Requests.{OutgoingView};
ghost use Rattle.http_relay_talk.specs.Lessons.{Learns, Teaches};
ghost use Rattle.http_relay_talk.specs.Openings.{visit_answer};
ghost use Rattle.http_relay_talk.specs.Shares.{Share, records};
ghost use Rattle.http_relay_talk.specs.Visits.{Holds, Steps};
ghost use Rattle.http_relay_talk.specs.declared.target.Target.{Target};
ghost use Rattle.http_relay_talk.specs.declared.underway.Step.TheVariants.{Done};

use crate::{TalkFault, VisitFault};
use http_relay_body::CopyFault;
use http_relay_dial::Dialer;
use http_relay_exchange::ExchangeFault;
use lb_desk_ports::Port;

/// Ends a visit whose response was copied with this answer: hangs up, and gives the slot back.
pub(crate) fn finish<R, P: Port<R>, D: Dialer<R>>(
    rt: &R,
    port: &mut P,
    dialer: &mut D,
    slot: P::Slot,
    connection: D::Connection,
    answer: Result<u64, CopyFault>,
) -> Result<u64, VisitFault>
    ensures { (target : Target) (request : OutgoingView) (own : Share) (client : Talk) (now : Talk) (told : Option (List ℕ))
        → Holds P.server_of target request own client now slot (talk_of D.Connection.written D.Connection.reading D.Connection.faults connection)
        (λ taught between now sent connection. CopiesBack between now sent connection answer
        × Teaches sent.reading connection.reading (λ text. Learns target.lesson target.server text taught))
        → Steps P.server_of (talk_of D.Connection.written D.Connection.reading D.Connection.faults) target request own client now
        (records P.entries P.refusals D.dials D.talks D.failures port.old told dialer.old)
        (records P.entries P.refusals D.dials D.talks D.failures port.new told dialer.new) [] (Done result) }
{
    dialer.hang_up(rt, connection);
    let _shut = port.shut(rt, slot);
    visit_answer(answer)
}

/// The answer of a visit whose request was sent.
fn visit_answer(answer: Result<u64, CopyFault>) -> Result<u64, VisitFault>
    ensures { result ≡ visit_answer answer }
{
    match answer {
        Ok(count) => Ok(count),
        Err(fault) => Err(VisitFault::Talk(TalkFault::Exchange(ExchangeFault::Copy(fault)))),
    }
}

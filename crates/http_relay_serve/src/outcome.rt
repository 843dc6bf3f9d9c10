ghost use Rattle.std.specs.Prelude.{◌≡◌};
ghost use Rattle.http_relay_serve.specs.Outcomes.{outcome_of, of_head, of_ask, of_visit, of_talk, of_send, of_body, of_copy};

use crate::{AskFault, BackendFault, Cause, ServeFault};
use http_relay_body::{BodyFault, CopyFault};
use http_relay_exchange::{ExchangeFault, SendFault};
use http_relay_head::HeadFault;
use http_relay_talk::{TalkFault, VisitFault};
use http_relay_wire::WireFault;

/// Why a request ended with nothing more for its client.
#[derive(Clone, Copy, Debug, PartialEq, Eq)]
pub enum DropCause {
    /// The client's wire broke in the head.
    HeadBroken,
    /// `100 Continue` couldn't be sent to the client.
    ContinueNotTaken(WireFault),
    /// A read from the client failed in the body.
    BodyNotRead(WireFault),
    /// A read from the server failed after the first byte of its response.
    ResponseCutShort(WireFault),
    /// The client didn't take the response.
    ResponseNotTaken(WireFault),
    /// The client didn't take the relay's own answer for this cause.
    AnswerNotTaken(Cause, WireFault),
}

/// What became of a request.
#[derive(Clone, Copy, Debug, PartialEq, Eq)]
pub enum Outcome {
    /// The client got the whole response of the server.
    Relayed,
    /// The client got an answer of the relay's own, for this cause.
    Answered(Cause),
    /// The client gets nothing more.
    Dropped(DropCause),
}

impl Outcome {
    /// What is due to a request whose response had so many bytes, or which was not relayed.
    pub(crate) fn of(answer: Result<u64, ServeFault>) -> Self
        ensures { result ≡ outcome_of answer }
    {
        match answer {
            Ok(0) => Outcome::Answered(Cause::NoResponse),
            Ok(_) => Outcome::Relayed,
            Err(ServeFault::Head(fault)) => of_head(fault),
            Err(ServeFault::NoBackend) => Outcome::Answered(Cause::NoBackend),
            Err(ServeFault::Backend(BackendFault::Memory)) => {
                Outcome::Answered(Cause::RequestMemory)
            }
            Err(ServeFault::Backend(BackendFault::Ask(fault))) => Outcome::Answered(of_ask(fault)),
            Err(ServeFault::Backend(BackendFault::Visit(fault))) => of_visit(fault),
        }
    }
}

fn of_head(fault: HeadFault) -> Outcome
    ensures { result ≡ of_head fault }
{
    match fault {
        HeadFault::HeadTooLarge => Outcome::Answered(Cause::HeadTooLarge),
        HeadFault::BadHead => Outcome::Answered(Cause::BadHead),
        HeadFault::BothLengths => Outcome::Answered(Cause::BothLengths),
        HeadFault::Truncated => Outcome::Answered(Cause::HeadCutShort),
        HeadFault::Wire(WireFault::Timeout) => Outcome::Answered(Cause::HeadTimedOut),
        HeadFault::Wire(WireFault::Broken) => Outcome::Dropped(DropCause::HeadBroken),
        HeadFault::Memory => Outcome::Answered(Cause::HeadMemory),
    }
}

fn of_ask(fault: AskFault) -> Cause
    ensures { result ≡ of_ask fault }
{
    match fault {
        AskFault::Refused(refused) => Cause::RequestRefused(refused),
        AskFault::NoServer => Cause::NoServer,
        AskFault::NoSuchServer => Cause::NoSuchServer,
        AskFault::UnknownServer => Cause::UnknownServer,
    }
}

fn of_visit(fault: VisitFault) -> Outcome
    ensures { result ≡ of_visit fault }
{
    match fault {
        VisitFault::Refused(refused) => Outcome::Answered(Cause::OpenRefused(refused)),
        VisitFault::NotServing => Outcome::Answered(Cause::NotServing),
        VisitFault::QueueOver => Outcome::Answered(Cause::QueueOver),
        VisitFault::Talk(fault) => of_talk(fault),
    }
}

fn of_talk(fault: TalkFault) -> Outcome
    ensures { result ≡ of_talk fault }
{
    match fault {
        TalkFault::Dial(fault) => Outcome::Answered(Cause::NotDialled(fault)),
        TalkFault::Exchange(ExchangeFault::Send(fault)) => of_send(fault),
        TalkFault::Exchange(ExchangeFault::Copy(fault)) => of_copy(fault),
    }
}

fn of_send(fault: SendFault) -> Outcome
    ensures { result ≡ of_send fault }
{
    match fault {
        SendFault::Continue(fault) => Outcome::Dropped(DropCause::ContinueNotTaken(fault)),
        SendFault::Head(fault) => Outcome::Answered(Cause::HeadNotTaken(fault)),
        SendFault::Body(fault) => of_body(fault),
    }
}

fn of_body(fault: BodyFault) -> Outcome
    ensures { result ≡ of_body fault }
{
    match fault {
        BodyFault::Truncated => Outcome::Answered(Cause::BodyCutShort),
        BodyFault::BadChunk => Outcome::Answered(Cause::BadChunk),
        BodyFault::Client(fault) => Outcome::Dropped(DropCause::BodyNotRead(fault)),
        BodyFault::Server(fault) => Outcome::Answered(Cause::BodyNotTaken(fault)),
    }
}

fn of_copy(fault: CopyFault) -> Outcome
    ensures { result ≡ of_copy fault }
{
    match fault {
        CopyFault::NoResponse(WireFault::Timeout) => Outcome::Answered(Cause::ResponseTimedOut),
        CopyFault::NoResponse(WireFault::Broken) => Outcome::Answered(Cause::ResponseBroken),
        CopyFault::CutShort(fault) => Outcome::Dropped(DropCause::ResponseCutShort(fault)),
        CopyFault::Client(fault) => Outcome::Dropped(DropCause::ResponseNotTaken(fault)),
    }
}

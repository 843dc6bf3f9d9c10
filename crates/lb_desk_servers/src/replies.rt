ghost use Rattle.std.specs.Prelude.{◌≡◌};
ghost use Rattle.lb_desk_model.specs.Servers.{refusal_of};
ghost use Rattle.lb_desk_servers.specs.Replies.{close_reply, open_reply, reply_of_change, reply_of_check};

use capacity_book::{CloseFault, OpenFault};
use lb_desk_model::{Refusal, Reply};
use server_state::{ChangeFault, Checked};

/// The reply to a check's result, of which this became.
pub(crate) fn reply_of_check(taken: Result<Checked, ChangeFault>) -> Reply
    ensures { result ≡ reply_of_check taken }
{
    match taken {
        Ok(checked) => Reply::Checked(checked),
        Err(fault) => Reply::Refused(refusal_of(fault)),
    }
}

/// The reply to a command that was made, or refused.
pub(crate) fn reply_of_change(made: Result<(), ChangeFault>) -> Reply
    ensures { result ≡ reply_of_change made }
{
    match made {
        Ok(()) => Reply::Done,
        Err(fault) => Reply::Refused(refusal_of(fault)),
    }
}

fn refusal_of(fault: ChangeFault) -> Refusal
    ensures { result ≡ refusal_of fault }
{
    match fault {
        ChangeFault::NoSuchServer => Refusal::NoSuchServer,
        ChangeFault::NotChecked => Refusal::NotChecked,
        ChangeFault::OutOfRange => Refusal::OutOfRange,
    }
}

/// The reply to a request for a connection.
pub(crate) fn open_reply(opened: Result<(), OpenFault>) -> Reply
    ensures { result ≡ open_reply opened }
{
    match opened {
        Ok(()) => Reply::Opened,
        Err(OpenFault::Full) => Reply::Refused(Refusal::Full),
        Err(OpenFault::NotServing) => Reply::Refused(Refusal::NotServing),
    }
}

/// The reply to the end of a connection.
pub(crate) fn close_reply(closed: Result<(), CloseFault>) -> Reply
    ensures { result ≡ close_reply closed }
{
    match closed {
        Ok(()) => Reply::Closed,
        Err(CloseFault::NotOpen) => Reply::Refused(Refusal::NotOpen),
    }
}

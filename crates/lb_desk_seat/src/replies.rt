//! Replies of a desk as the answers of ports and movers.
ghost use Rattle.std.specs.Prelude.{◌≡◌};
ghost use Rattle.lb_desk_seat.specs.Replies.{asked_of, filed_of, installing_of, pinning_of};

use lb_desk_model::{Refusal, Reply};
use lb_desk_ports::{Asked, Filed, Installing, Pinning};

/// The answer to a request for a server, from a desk's reply to it.
pub(crate) fn asked(reply: &Reply) -> Asked
    ensures { result ≡ asked_of reply.now }
{
    match reply {
        Reply::Served(server, how) => Asked::Served(*server, *how),
        Reply::Refused(Refusal::NoSuchServer) => Asked::NoSuchServer,
        _ => Asked::NoServer,
    }
}

/// The answer to a pin that is to stand at a server, from a desk's reply to it.
pub(crate) fn pinning(reply: &Reply) -> Pinning
    ensures { result ≡ pinning_of reply.now }
{
    match reply {
        Reply::Pinned(how) => Pinning::Pinned(*how),
        Reply::NoTable => Pinning::NoTable,
        Reply::Refused(Refusal::TableFull) => Pinning::TableFull,
        _ => Pinning::NoSuchServer,
    }
}

/// The answer to the result of a check, from a desk's reply to it.
pub(crate) fn filed(reply: &Reply) -> Filed
    ensures { result ≡ filed_of reply.now }
{
    match reply {
        Reply::Checked(checked) => Filed::Checked(*checked),
        Reply::Refused(Refusal::NotChecked) => Filed::NotChecked,
        _ => Filed::NoSuchServer,
    }
}

/// The answer to a plan for a sheet that the desk gave, from the desk's reply to it.
pub(crate) fn installing(reply: &Reply) -> Installing
    ensures { result ≡ installing_of reply.now }
{
    match reply {
        Reply::Installed(score) => Installing::Installed(*score),
        _ => Installing::Stale,
    }
}

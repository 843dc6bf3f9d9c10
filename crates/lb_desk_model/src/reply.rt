ghost use Rattle.std.specs.Prelude.{◌≡◌};

use crate::Shared;
use cert_check::CheckFault;
use dual_cert_plan::Sheet;
use lb_types::ServerId;
use pin_set::Score;
use server_state::Checked;
use std::alloc::AllocError;

/// How a request was served.
#[derive(Clone, Copy, Debug, PartialEq, Eq, Hash)]
pub enum ServedAs {
    /// By its pin, where the pin is.
    Kept,
    /// By its pin, which goes to that server.
    Moved,
    /// By a new pin.
    Made,
    /// Without a pin.
    Loose,
}

/// What became of a pin that was set.
#[derive(Clone, Copy, Debug, PartialEq, Eq, Hash)]
pub enum PinnedAs {
    /// It was there.
    Kept,
    /// It was elsewhere, or had no server.
    Moved,
    /// There was none of its name.
    Made,
}

/// Why an event was refused. It then changed nothing.
#[derive(Clone, Copy, Debug, PartialEq, Eq)]
pub enum Refusal {
    /// There is no such server.
    NoSuchServer,
    /// A command's number is out of its range.
    OutOfRange,
    /// A health or a check's result is for a server that isn't checked.
    NotChecked,
    /// As many connections are open as the server's `maxconn` says.
    Full,
    /// The server doesn't serve.
    NotServing,
    /// No connection is open there.
    NotOpen,
    /// A pin can't be made: the table is full, and keeps its pins.
    TableFull,
    /// The plan is for another version of the table.
    Stale,
    /// The plan fails the check.
    Bad(CheckFault),
    /// There is no server for the request.
    NoServer,
}

impl Refusal {
    ghost use Rattle.lb_desk_model.specs.RefusalNumbers.{number_of};

    /// The number of the refusal in answers to operators.
    pub fn number(self) -> u16
        ensures { result ≡ number_of self }
    {
        match self {
            Refusal::NoSuchServer => 10,
            Refusal::OutOfRange => 11,
            Refusal::NotChecked => 12,
            Refusal::Full => 30,
            Refusal::NotServing => 31,
            Refusal::NotOpen => 32,
            Refusal::TableFull => 60,
            Refusal::Stale => 70,
            Refusal::Bad(_) => 71,
            Refusal::NoServer => 80,
        }
    }
}

/// What a backend answers to an event.
#[derive(Debug, Drop, PartialEq, Eq)]
pub enum Reply {
    /// The request's server.
    Served(ServerId, ServedAs),
    /// The pin stands at the server of the event.
    Pinned(PinnedAs),
    /// There is no table that a pin could be set in.
    NoTable,
    /// The pin is gone.
    Cleared,
    /// There is no pin of the name.
    NoPin,
    /// A connection is open.
    Opened,
    /// A connection has ended.
    Closed,
    /// So many pins went.
    Expired(u64),
    /// What became of the check's result.
    Checked(Checked),
    /// The change is made.
    Done,
    /// The sheet of the view, with the table's version.
    Sheet(Shared<Sheet>),
    /// The plan's moves are made, and this is their score.
    Installed(Score),
    /// Nothing is done.
    Refused(Refusal),
}

impl Clone for Reply {
    ghost use Rattle.std.specs.Prelude.{◌≡◌};
    ghost use Rattle.lb_desk_model.specs.Copies.{IsPlainReply};

    ghost is_clone = { λ reply copy. copy ≡ reply };

    ghost is_infallible = { IsPlainReply };

    /// The same reply. It allocates nothing: one owner more of a sheet is a step of a counter, and fails at 2^63 - 1 owners.
    fn clone(&self) -> Result<Reply, AllocError> {
        Ok(match self {
            Reply::Served(server, how) => Reply::Served(*server, *how),
            Reply::Pinned(how) => Reply::Pinned(*how),
            Reply::NoTable => Reply::NoTable,
            Reply::Cleared => Reply::Cleared,
            Reply::NoPin => Reply::NoPin,
            Reply::Opened => Reply::Opened,
            Reply::Closed => Reply::Closed,
            Reply::Expired(count) => Reply::Expired(*count),
            Reply::Checked(checked) => Reply::Checked(*checked),
            Reply::Done => Reply::Done,
            Reply::Sheet(sheet) => Reply::Sheet(sheet.clone()?),
            Reply::Installed(score) => Reply::Installed(*score),
            Reply::Refused(refusal) => Reply::Refused(*refusal),
        })
    }
}

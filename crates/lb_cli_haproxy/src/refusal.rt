use dual_cert_text::{ReadError, TextFault};
use haproxy_commands::CommandsFault;
use std::alloc::{AllocError, Global};

/// Why a job has no answer but a line that says so.
#[derive(Clone, Copy, Debug)]
pub(crate) enum Refusal {
    /// There is not memory enough.
    Memory,
    /// PLAN isn't a plan's text.
    Plan(TextFault),
    /// The line of STATE that isn't of the form.
    State(u64),
    /// The line of DUMP that isn't of the form.
    Dump(u64),
    /// The check refuses the plan for the dump's clients.
    OtherDump,
    /// A server of the plan has no number of 32 bits in STATE.
    UnknownServer,
    /// Some client has no server by the plan.
    Unplaced,
    /// The dump's table can't be named in a command.
    BadTable,
    /// A key can't be named in a command.
    BadKey,
    /// STATE has no such server, or it isn't named as `BACKEND/SERVER`.
    Target,
    /// There are more servers or clients than a sheet has, or servers have names that it can't have, or the same.
    BadFarm,
}

impl From<AllocError> for Refusal {
    fn from(_: AllocError) -> Self {
        Refusal::Memory
    }
}

impl From<CommandsFault> for Refusal {
    fn from(fault: CommandsFault) -> Self {
        match fault {
            CommandsFault::BadTable => Refusal::BadTable,
            CommandsFault::BadKey(_) => Refusal::BadKey,
            CommandsFault::OutOfMemory => Refusal::Memory,
        }
    }
}

impl From<ReadError> for Refusal {
    fn from(error: ReadError) -> Self {
        match error {
            ReadError::Fault(fault) => Refusal::Plan(fault),
            ReadError::Memory => Refusal::Memory,
        }
    }
}

impl Refusal {
    /// The line that says so, with its end.
    pub(crate) fn line(self, alloc: Global) -> Result<String, AllocError> {
        let mut line = match self {
            Refusal::Memory => return Err(AllocError),
            Refusal::Plan(fault) => fault.text(alloc)?,
            Refusal::State(line) => format!(in alloc; "STATE: line {line} isn't understood")?,
            Refusal::Dump(line) => format!(in alloc; "DUMP: line {line} isn't understood")?,
            other => String::from_str(alloc, other.sentence())?,
        };
        line.push('\n')?;
        Ok(line)
    }

    fn sentence(self) -> &'static str {
        match self {
            Refusal::OtherDump => "the plan isn't one for this dump",
            Refusal::UnknownServer => "a server of the plan isn't in STATE",
            Refusal::Unplaced => "the plan leaves clients without a server",
            Refusal::BadTable => "no command can name the table of DUMP",
            Refusal::BadKey => "no command can name the key of a client that moves",
            Refusal::Target => "no such BACKEND/SERVER in STATE",
            Refusal::BadFarm => "no sheet can have these servers and clients",
            _ => "the job can't be done",
        }
    }
}

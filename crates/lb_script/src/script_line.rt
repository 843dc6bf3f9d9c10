use command_socket::{CommandFault, Shown};
use lb_desk_model::Event;

/// What one line of a replay script asks for.
#[derive(Debug, Drop, PartialEq, Eq)]
pub enum ScriptLine {
    /// Nothing: the line is empty.
    Blank,
    /// An event of the backend that the script is for: a request, a pin that is set or cleared, the opening or the end of a connection, an expiry, the result of
    /// a check, or an operator's change of a server. `Snapshot` and `Install` are no such events.
    Event(Event),
    /// `snapshot`: a sheet, which is kept as the next one.
    Snapshot,
    /// `install K`: a plan for the K-th sheet that was kept, to be installed. K is 1 or more.
    Install(u64),
    /// `plan`: a plan for what is now, to be installed.
    PlanNow,
    /// `stickyplan 1` or `stickyplan 2`: the first line of a plan's text, to be installed. The text runs through its line `end`.
    PlanText,
    /// What must be shown to an operator of the backend at this place among the configuration's.
    Show(Shown, usize),
    /// An operator's command that names a backend or a server that isn't there: `NoBackend` or `NoSuchServer`.
    Refused(CommandFault),
}

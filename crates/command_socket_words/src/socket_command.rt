use crate::{Command, KeyWord, ServerName};
use lb_types::Name;

/// What the command socket is asked for. Its names are lawful; whether there is such a backend or server is not known, nor whether
/// a word is a key.
#[derive(Debug, Drop)]
pub enum SocketCommand<'a> {
    /// A command that scripts take too.
    Plain(Command),
    /// Prints the pins of the key: `show table B key K`.
    ShowKey(Name, KeyWord<'a>),
    /// Has the pins of the key go: `clear table B key K`.
    ClearKey(Name, KeyWord<'a>),
    /// Has the pins of the key stand at the server: `set table B key K server S`.
    SetKey(ServerName, KeyWord<'a>),
    /// Prints the sheet of the moment: `show sheet B`.
    ShowSheet(Name),
    /// Prints what planning the backend's pins again would come to, and moves none: `plan backend B dry`.
    PlanDry(Name),
}

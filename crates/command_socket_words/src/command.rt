use lb_types::Name;
use server_state::Setting;

/// A server, as commands name it: `web/a` is the server `a` of the backend `web`.
#[derive(Clone, Copy, Debug, PartialEq, Eq, Hash)]
pub struct ServerName {
    /// The backend's name.
    pub backend: Name,
    /// The server's name in its backend.
    pub server: Name,
}

/// What `show` prints of a backend.
#[derive(Clone, Copy, Debug, PartialEq, Eq, Hash)]
pub enum Shown {
    /// The plan that was installed last.
    Plan,
    /// The pins of the stick table.
    Table,
    /// The events so far.
    Journal,
}

/// An operator's command. Its names are lawful; whether there is such a backend or server is not known.
#[derive(Clone, Copy, Debug, PartialEq, Eq, Hash)]
pub enum Command {
    /// Changes a server. Its numbers are of any size: whether they are in range is not known.
    Set(ServerName, Setting),
    /// Plans the backend's pins again, and moves them.
    Plan(Name),
    /// Prints what is asked of the backend.
    Show(Shown, Name),
    /// Ends the program.
    Stop,
}

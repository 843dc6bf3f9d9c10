ghost use Rattle.std.specs.Prelude.{◌≡◌};

use lb_types::ServerId;

/// A connection that is open at a server of one desk. It can't be dropped: the caller that got it gives it back to that desk by
/// `SharedDesk::shut`, or gives it up.
#[derive(Debug)]
pub struct Slot {
    pub(crate) desk: u64,
    pub(crate) server: ServerId,
}

impl Slot {
    /// The number of the desk that opened it.
    pub fn desk(&self) -> u64
        ensures { result ≡ self.now.desk }
    {
        self.desk
    }

    /// The server that the connection is open at.
    pub fn server(&self) -> ServerId
        ensures { result ≡ self.now.server }
    {
        self.server
    }

    /// Gives the slot up, and returns the server. The connection stays open at its desk for ever, which then can't be closed (83).
    pub fn give_up(self) -> ServerId
        ensures { result ≡ self.server }
    {
        let Slot { desk: _, server } = self;
        server
    }
}

ghost use Rattle.std.specs.Prelude.{◌+◌, ◌-◌, ◌<◌, ◌≤◌, min};

use libc::types::rlimit;
use libc::{RLIMIT_NOFILE, getrlimit};

/// The files that a balancer has open beside the connections of its clients.
#[derive(Clone, Copy, Debug, PartialEq, Eq)]
pub struct OtherFiles {
    /// Those that it has from the start.
    pub own: usize,
    /// Connections to servers for requests of clients: one for each worker, if there are so many clients.
    pub dials: usize,
    /// All others, such as connections of checks and of operators.
    pub others: usize,
}

impl OtherFiles {
    /// The end of the descriptors that clients' connections may have, if the process may have `most` files open. The system gives each
    /// file the lowest free descriptor. So if no client keeps one from this end on, there is always one for the others, and for a dial
    /// for each worker or for each client.
    ///
    /// If there are too few for that, at least one client may be there, and about a quarter of what is left is for clients.
    pub fn end_of_clients(self, most: usize) -> usize
        ensures some { self.own < most → self.own < result }
        ensures dials { self.own + self.others + self.others + 2 ≤ most → result + min self.dials (result - self.own) + self.others ≤ most }
        ensures no_less { self.own + self.others + self.others + 2 ≤ most
            → most ≤ result + min self.dials (result - self.own) + self.others + 1 }
    {
        let left = most.saturating_sub(self.own);
        let room = left - self.others.min(left / 2);
        let clients = room.saturating_sub(self.dials).max(room / 2).max(1);
        self.own.saturating_add(clients)
    }
}

/// How many files the process may have open at the moment. It costs one system call. If the system doesn't say, nothing limits them.
pub fn most_open_files() -> usize {
    let mut limit = rlimit {
        rlim_cur: 0,
        rlim_max: 0,
    };
    if getrlimit(RLIMIT_NOFILE, &mut limit) != 0 {
        return usize::MAX;
    }
    usize::try_from(limit.rlim_cur).unwrap_or(usize::MAX)
}

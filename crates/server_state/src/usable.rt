ghost use Rattle.std.specs.Prelude.{◌≡◌, ◌≤◌, ◌&&◌, ◌||◌, ◌==◌, length, if◌then◌else◌};
ghost use Rattle.lb_types.specs.declared.limits.TheConstants.{MAX_SERVERS};
ghost use Rattle.lb_types.specs.Servers.{with_server};
ghost use Rattle.server_state.specs.Server.{is_main, is_spare};
ghost use Rattle.server_state.specs.Farm.{usable};

use crate::server::Server;
use lb_types::{ServerId, ServerSet};

/// The usable servers, in one walk.
pub(crate) fn usable_among(servers: &[Server], all_backups: bool) -> ServerSet
    requires { length servers.now ≤ MAX_SERVERS }
    ensures { result ≡ usable (record { servers = servers.now; all_backups = all_backups }) }
{
    let mut found = Found {
        main: ServerSet::empty(),
        spare: ServerSet::empty(),
    };
    for (i, server) in servers.iter().enumerate() {
        found.add(ServerId::new(i as u8), server, all_backups);
    }
    if found.main.is_empty() {
        found.spare
    } else {
        found.main
    }
}

/// The servers found so far that are usable, and those that are where none of the first is.
#[derive(Clone, Copy, Debug)]
struct Found {
    main: ServerSet,
    spare: ServerSet,
}

impl Found {
    /// Adds the server to the set that it belongs to, if it can take pins.
    fn add(&mut self, id: ServerId, server: &Server, all_backups: bool)
        ensures main { self.new.main
            ≡ (if is_main server.now then with_server self.old.main id else self.old.main) }
        ensures spare { self.new.spare
            ≡ (if is_spare server.now && (all_backups || self.old.spare == 0)
            then with_server self.old.spare id else self.old.spare) }
    {
        if !server.takes_pins() {
            return;
        }
        if !server.is_backup() {
            self.main = self.main.with(id);
        } else if all_backups || self.spare.is_empty() {
            self.spare = self.spare.with(id);
        }
    }
}

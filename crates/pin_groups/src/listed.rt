ghost use Rattle.std.specs.Prelude.{◌≡◌, ◌≤◌, ◌<◌, length, IfOk};
ghost use Rattle.lb_types.specs.declared.limits.TheConstants.{MAX_SERVERS};
ghost use Rattle.cert_check_law.specs.Sheets.{listed_server, listed_servers};

use dual_cert_plan::Server;
use lb_types::{ServerId, ServerSet};
use pin_set::ViewServer;
use std::alloc::{AllocError, Global};

/// The servers of a view as its sheet lists them: with their capacities where they are usable, and off elsewhere.
pub(crate) fn listed_servers(
    alloc: Global,
    usable: ServerSet,
    servers: &[ViewServer],
) -> Result<Vec<Server>, AllocError>
    requires { length servers.now ≤ MAX_SERVERS }
    ensures { IfOk result (λ listed. listed.items ≡ listed_servers usable servers.now) }
{
    let mut listed = Vec::new(alloc);
    for (i, server) in servers.iter().enumerate() {
        listed.push(listed_server(usable, i, server))?;
    }
    Ok(listed)
}

fn listed_server(usable: ServerSet, index: usize, server: &ViewServer) -> Server
    requires { index < MAX_SERVERS }
    ensures { result ≡ listed_server usable (index, server.now) }
{
    let capacity = if usable.has(ServerId::new(index as u8)) {
        Some(server.capacity)
    } else {
        None
    };
    Server {
        name: server.name,
        capacity,
    }
}

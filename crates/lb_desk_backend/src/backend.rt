ghost use Rattle.std.specs.Prelude.{◌≡◌, IfOk};
ghost use Rattle.std.specs.Option.{option_copied, option_map};
ghost use Rattle.lb_desk_backend.specs.Configured.{IsBackendOf, configured_table, table_parts};

use crate::servers::servers_of;
use lb_config::BackendConfig;
use lb_config_parameters::StickTable;
use lb_desk_model::Backend;
use lb_types::TableSettings;
use std::alloc::{AllocError, Global};

/// The backend that the machine of a configured backend opens with. The only error is out of memory.
///
/// Cost: one allocation, for the servers, which are copied.
pub fn backend_of(alloc: Global, config: &BackendConfig) -> Result<Backend, AllocError>
    ensures { IfOk result (λ backend. IsBackendOf config.now backend) }
{
    let servers = servers_of(alloc, config.servers())?;
    let table = table_of(config.rules().table());
    Ok(Backend::new(config.balance(), config.all_backups(), table, servers))
}

/// The table's settings for the machine, if there is a table.
fn table_of(configured: Option<&StickTable>) -> Option<TableSettings>
    ensures { option_map table_parts result ≡ option_map configured_table (option_copied configured.entry) }
{
    Some(configured?.settings())
}

use lb_acl::KeySample;
use lb_config_arguments::Endpoint;
use lb_config_conditions::{AclDeclaration, BackendRule, CostRule, ServerRule};
use lb_config_keywords::{HttpCheck, StatsSocket, Timeout};
use lb_config_parameters::{ServerLine, ServerOptions, StickTable};
use lb_types::{Balance, Name};

/// What a line sets. Names of backends, servers and ACLs are not yet looked up.
#[derive(Debug, Drop)]
pub enum Setting {
    /// `stats socket`.
    StatsSocket(StatsSocket),
    /// `tune.relays`, 1 to 64.
    Relays(u8),
    /// `tune.tries`, 1 to 1000.
    Tries(u16),
    /// `tune.journal`, 1 to 1000000.
    Journal(u32),
    /// `mode http`, which is so without the line.
    HttpMode,
    /// `timeout`, in milliseconds.
    Timeout(Timeout, u32),
    /// `balance`.
    Balance(Balance),
    /// `option httpchk`.
    HttpCheck(HttpCheck),
    /// `option allbackups`.
    AllBackups,
    /// `option evacuate`.
    Evacuate,
    /// `option forwardfor`.
    ForwardFor,
    /// `bind`.
    Bind(Endpoint),
    /// `acl`.
    Acl(AclDeclaration),
    /// `use_backend`.
    UseBackend(BackendRule),
    /// `default_backend`.
    DefaultBackend(Name),
    /// `stick-table`.
    StickTable(StickTable),
    /// `stick on`.
    StickOn(KeySample),
    /// `use-server`.
    UseServer(ServerRule),
    /// `pin-cost`.
    PinCost(CostRule),
    /// `default-server`.
    DefaultServer(ServerOptions),
    /// `server`.
    Server(ServerLine),
}

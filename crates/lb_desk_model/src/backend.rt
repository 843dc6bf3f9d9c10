use lb_types::{Balance, Name, TableSettings};
use server_state::ServerSettings;
use std::marker::Model;

/// A server of a backend, as it is configured.
#[derive(Clone, Copy, Debug, PartialEq, Eq)]
pub struct BackendServer {
    pub name: Name,
    pub settings: ServerSettings,
}

/// What the configuration says of a backend and no event changes, and the servers that it begins with.
#[derive(Debug, Drop)]
pub struct Backend {
    balance: Balance,
    all_backups: bool,
    table: Option<TableSettings>,
    servers: Vec<BackendServer>,
}

impl Model for Backend {
    ghost use Rattle.lb_desk_model.specs.Backends.{BackendParts, IsBackend, backend_of_parts};

    ghost Value = { BackendParts };

    ghost view = { λ b. backend_of_parts b.balance b.all_backups b.table b.servers.items };

    ghost invariant = { λ b. IsBackend (backend_of_parts b.balance b.all_backups b.table b.servers.items) };
}

impl Backend {
    ghost use Rattle.std.specs.Prelude.{◌≡◌};
    ghost use Rattle.lb_desk_model.specs.Backends.{IsBackend, backend_of_parts};

    /// The backend of these parts, which allocates nothing. It has at most 128 servers, in the configuration's order, with
    /// distinct names. `all_backups` says that all backups are usable together, where only backups are left.
    pub fn new(
        balance: Balance,
        all_backups: bool,
        table: Option<TableSettings>,
        servers: Vec<BackendServer>,
    ) -> Self
        requires { IsBackend (backend_of_parts balance all_backups table servers.items) }
        ensures { result ≡ backend_of_parts balance all_backups table servers.items }
    {
        Backend {
            balance,
            all_backups,
            table,
            servers,
        }
    }

    /// How it chooses among servers.
    pub fn balance(&self) -> Balance
        ensures { result ≡ self.now.balance }
    {
        self.balance
    }

    /// Whether all backups are usable together, where only backups are left.
    pub fn all_backups(&self) -> bool
        ensures { result ≡ self.now.all_backups }
    {
        self.all_backups
    }

    /// The table of pins, if there is one.
    pub fn table(&self) -> Option<TableSettings>
        ensures { result ≡ self.now.table }
    {
        self.table
    }

    /// The servers, in the configuration's order.
    pub fn servers(&self) -> &[BackendServer]
        ensures exact { result.now ≡ self.now.servers }
        ensures lawful { IsBackend self.now }
    {
        &self.servers
    }
}

impl PartialEq for Backend {
    ghost use Rattle.std.specs.Cmp.{partial_equiv_from_equiv};
    ghost use Rattle.std.specs.Cmp.Rules.{comparing};
    ghost use Rattle.std.proofs.Common.{rules};
    ghost use Rattle.lb_types.specs.contracts.balance.BalanceEq.TheImpl.Laws as balance_laws;
    ghost use Rattle.lb_types.specs.contracts.table_settings.TableSettingsEq.TheImpl.Laws as table_laws;
    ghost use Rattle.lb_desk_model.specs.contracts.backend.BackendServerEq.TheImpl.Laws as server_laws;
    ghost use Rattle.lb_desk_model.specs.Equality.{equal_backends};

    ghost eq = { equal_backends };

    ghost laws = { partial_equiv_from_equiv (Prim.search (comparing, balance_laws.laws-law, table_laws.laws-law, server_laws.laws-law, rules) depth 12) };

    fn eq(&self, other: &Backend) -> bool {
        self.balance == other.balance
            && self.all_backups == other.all_backups
            && self.table == other.table
            && self.servers == other.servers
    }
}

impl Eq for Backend {
    ghost use Rattle.std.specs.Cmp.Rules.{comparing};
    ghost use Rattle.std.proofs.Common.{rules};
    ghost use Rattle.lb_types.specs.contracts.balance.BalanceEq.TheImpl.Laws as balance_laws;
    ghost use Rattle.lb_types.specs.contracts.table_settings.TableSettingsEq.TheImpl.Laws as table_laws;
    ghost use Rattle.lb_desk_model.specs.contracts.backend.BackendServerEq.TheImpl.Laws as server_laws;

    ghost laws = { Prim.search (comparing, balance_laws.laws-law, table_laws.laws-law, server_laws.laws-law, rules) depth 12 };
}

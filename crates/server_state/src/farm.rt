ghost use Rattle.std.specs.Prelude.{◌≡◌, ℕ, ◌==◌, ◌≤◌, ◌↔◌, [], length, IsTrue, IfOk};
ghost use Rattle.std.specs.List.{list_any};
ghost use Rattle.lb_types.specs.declared.limits.TheConstants.{MAX_PINS, MAX_SERVERS, MAX_WEIGHT};
ghost use Rattle.lb_types.specs.Servers.{has};

use crate::server::Server;
use crate::usable::usable_among;
use crate::{AdminState, Change, ChangeFault, Checked, ServerSettings, Setting};
use lb_types::{ServerId, ServerSet};
use std::alloc::{AllocError, Global};
use std::marker::Model;

/// The servers of one backend, in the configuration's order.
///
/// Once made it allocates nothing. `serving` and `usable` cost a few machine instructions; whatever may change the
/// usable servers costs one walk over all servers.
#[derive(Debug, Drop)]
pub struct Farm {
    servers: Vec<Server>,
    all_backups: bool,
    /// What `usable` answers, kept from one change to the next.
    usable: ServerSet,
}

impl Model for Farm {
    ghost use Rattle.server_state.specs.Farm.{FarmView, IsFarm};

    ghost Value = { FarmView };

    ghost view = { λ f. record { servers = f.servers.items; all_backups = f.all_backups } };

    ghost invariant = { λ f. IsFarm f.servers.items f.all_backups f.usable };
}

impl Farm {
    ghost use Rattle.server_state.specs.Farm.{farm_at_start, serving, usable, usable_servers};
    ghost use Rattle.server_state.specs.Farm.{weight_of, max_connections_of, capacity_of};
    ghost use Rattle.server_state.specs.Changes.{Sets};
    ghost use Rattle.server_state.specs.Checks.{Checks};

    /// The servers at the start. `settings` is at most 128 servers. `all_backups` says whether all backups are usable
    /// together, where only backups are left, and not the first alone.
    ///
    /// It allocates memory for one list of the servers, which is all that a farm ever has. The only error is out of memory.
    pub fn new(
        alloc: Global,
        settings: &[ServerSettings],
        all_backups: bool,
    ) -> Result<Farm, AllocError>
        requires { length settings.now ≤ MAX_SERVERS }
        ensures { IfOk result (λ farm. farm ≡ farm_at_start settings.now all_backups) }
    {
        let servers = Server::open_all(alloc, settings)?;
        let usable = usable_among(&servers, all_backups);
        Ok(Farm {
            servers,
            all_backups,
            usable,
        })
    }

    /// Whether the server exists, isn't in maintenance, and is unchecked or up.
    pub fn serving(&self, server: ServerId) -> bool
        ensures { result ≡ serving self.now server }
    {
        match self.servers.get(server.index()) {
            None => false,
            Some(found) => found.serves(),
        }
    }

    /// The servers that new pins may go to: those that aren't backups, serve, are ready and have a weight above 0. If
    /// there are none, it is the first backup with these properties or, with `all_backups`, all of them.
    pub fn usable(&self) -> ServerSet
        ensures exact { result ≡ usable self.now }
        ensures members { (s : ℕ) → has result s
            ≡ list_any (λ u. s == u) (usable_servers self.now) }
    {
        self.usable
    }

    /// How many servers there are.
    pub fn len(&self) -> usize
        ensures exact { result ≡ length self.now.servers }
        ensures few { result ≤ MAX_SERVERS }
    {
        self.servers.len()
    }

    /// Whether there is no server.
    pub fn is_empty(&self) -> bool
        ensures { IsTrue result ↔ (self.now.servers ≡ []) }
    {
        self.servers.is_empty()
    }

    /// The server's weight; 0 where there is no such server.
    pub fn weight(&self, server: ServerId) -> u16
        ensures exact { result ≡ weight_of self.now server }
        ensures in_range { result ≤ MAX_WEIGHT }
    {
        self.servers
            .get(server.index())
            .map_or(0, |found| found.weight())
    }

    /// The server's `maxconn`: how many connections may be open, where 0 is no limit; 0 where there is no such server.
    pub fn max_connections(&self, server: ServerId) -> u32
        ensures { result ≡ max_connections_of self.now server }
    {
        self.servers
            .get(server.index())
            .map_or(0, |found| found.max_connections())
    }

    /// The server's capacity for pins; 0 where there is no such server.
    pub fn capacity(&self, server: ServerId) -> u32
        ensures exact { result ≡ capacity_of self.now server }
        ensures in_range { result ≤ MAX_PINS }
    {
        self.servers
            .get(server.index())
            .map_or(0, |found| found.max_pins())
    }

    /// Makes the change. It is refused with `NoSuchServer`, `NotChecked` or `OutOfRange`, the first of these that
    /// holds, and then changes nothing.
    pub fn apply(&mut self, change: Change) -> Result<(), ChangeFault>
        ensures { Sets self.old self.new result change.server change.setting }
    {
        let index = change.server.index();
        if index >= self.servers.len() {
            return Err(ChangeFault::NoSuchServer);
        }
        let result = self.servers[index].set(change.setting);
        self.usable = usable_among(&self.servers, self.all_backups);
        result
    }

    /// Sets the admin state. A checked server that leaves `Maint` is warmed again: it counts as up, and is one failure
    /// from down. Refused as by `apply`, for `NoSuchServer` alone.
    pub fn set_admin(&mut self, server: ServerId, admin: AdminState) -> Result<(), ChangeFault>
        ensures { Sets self.old self.new result server (Setting.Admin admin) }
    {
        let setting = Setting::Admin(admin);
        self.apply(Change { server, setting })
    }

    /// Makes a checked server count as up or as down, as if all the results that this needs had come. In maintenance
    /// it is allowed, and leaving maintenance overwrites it. Refused as by `apply`, for `NoSuchServer` or `NotChecked`.
    pub fn set_health(&mut self, server: ServerId, up: bool) -> Result<(), ChangeFault>
        ensures { Sets self.old self.new result server (Setting.Health up) }
    {
        let setting = Setting::Health(up);
        self.apply(Change { server, setting })
    }

    /// Sets the weight, 0 to 256. Refused as by `apply`, for `NoSuchServer` or `OutOfRange`.
    pub fn set_weight(&mut self, server: ServerId, weight: u64) -> Result<(), ChangeFault>
        ensures { Sets self.old self.new result server (Setting.Weight weight) }
    {
        let setting = Setting::Weight(weight);
        self.apply(Change { server, setting })
    }

    /// Sets how many connections may be open at once, 0 to 4294967295, where 0 is no limit. Refused as by `apply`, for
    /// `NoSuchServer` or `OutOfRange`.
    pub fn set_maxconn(&mut self, server: ServerId, limit: u64) -> Result<(), ChangeFault>
        ensures { Sets self.old self.new result server (Setting.MaxConnections limit) }
    {
        let setting = Setting::MaxConnections(limit);
        self.apply(Change { server, setting })
    }

    /// Sets how many pins the server may hold, 0 to 16777216. Pins above a lowered limit stay. Refused as by `apply`,
    /// for `NoSuchServer` or `OutOfRange`.
    pub fn set_maxpins(&mut self, server: ServerId, limit: u64) -> Result<(), ChangeFault>
        ensures { Sets self.old self.new result server (Setting.MaxPins limit) }
    {
        let setting = Setting::MaxPins(limit);
        self.apply(Change { server, setting })
    }

    /// Takes a check's result. It is refused with `NoSuchServer` or `NotChecked`, in this order, and then changes
    /// nothing; in maintenance it is ignored.
    pub fn check(&mut self, server: ServerId, ok: bool) -> Result<Checked, ChangeFault>
        ensures { Checks self.old self.new result server ok }
    {
        let index = server.index();
        if index >= self.servers.len() {
            return Err(ChangeFault::NoSuchServer);
        }
        let result = self.servers[index].check(ok);
        self.usable = usable_among(&self.servers, self.all_backups);
        result
    }
}

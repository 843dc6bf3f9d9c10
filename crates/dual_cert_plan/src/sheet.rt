ghost use Rattle.std.specs.Cmp.{partial_equiv_from_equiv};
ghost use Rattle.std.specs.Cmp.Rules.{comparing};
ghost use Rattle.std.proofs.Common.{rules};
ghost use Rattle.dual_cert_plan.specs.Equality.{equal_sheets};

use crate::Server;
use lb_types_pins::Group;
use std::marker::Model;

/// What a planner is asked: the servers with their room, and how many pins of each kind there are.
///
/// A sheet has at most 128 servers with distinct names, groups in strictly rising order that speak of these servers
/// alone, and at most 16777216 pins.
#[derive(Debug, Drop)]
pub struct Sheet {
    version: u64,
    servers: Vec<Server>,
    groups: Vec<Group>,
}

impl Model for Sheet {
    ghost use Rattle.dual_cert_plan.specs.Sheets.{SheetParts, IsSheet};

    ghost Value = { SheetParts };

    ghost view = { λ s. record { version = s.version; servers = s.servers.items; groups = s.groups.items } };

    ghost invariant = { λ s. IsSheet (record { version = s.version; servers = s.servers.items; groups = s.groups.items }) };
}

impl Sheet {
    ghost use Rattle.std.specs.Prelude.{◌≡◌};
    ghost use Rattle.dual_cert_plan.specs.Sheets.{SheetParts, IsSheet, sheet_of_parts};

    /// The sheet of these parts, which allocates nothing. `version` is the table's version, at most 2^63.
    pub fn new(version: u64, servers: Vec<Server>, groups: Vec<Group>) -> Self
        requires { IsSheet (sheet_of_parts version servers.items groups.items) }
        ensures { result ≡ sheet_of_parts version servers.items groups.items }
    {
        Sheet {
            version,
            servers,
            groups,
        }
    }

    /// The version of the table that the sheet was taken of.
    pub fn version(&self) -> u64
        ensures { result ≡ self.now.version }
    {
        self.version
    }

    /// The servers in the configuration's order.
    pub fn servers(&self) -> &[Server]
        ensures exact { result.now ≡ self.now.servers }
        ensures lawful { IsSheet self.now }
    {
        &self.servers
    }

    /// The groups in strictly rising order.
    pub fn groups(&self) -> &[Group]
        ensures exact { result.now ≡ self.now.groups }
        ensures lawful { IsSheet self.now }
    {
        &self.groups
    }
}

impl PartialEq for Sheet {
    ghost eq = { equal_sheets };

    ghost laws = { partial_equiv_from_equiv (Prim.search (comparing, rules) depth 12) };

    fn eq(&self, other: &Sheet) -> bool {
        self.version == other.version
            && self.servers == other.servers
            && self.groups == other.groups
    }
}

impl Eq for Sheet {
    ghost laws = { Prim.search (comparing, rules) depth 12 };
}

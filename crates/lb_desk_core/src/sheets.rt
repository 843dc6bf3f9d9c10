//! What planners ask for: the sheet of the backend's view.
ghost use Rattle.std.specs.Prelude.{◌≡◌, ◌^◌, ◌≤◌, IfOk, length, map};
ghost use Rattle.std.specs.List.{zip};
ghost use Rattle.lb_types.specs.declared.limits.TheConstants.{MAX_SERVERS};
ghost use Rattle.pin_groups.specs.Counts.{AreGroupsOfCounts};
ghost use Rattle.server_state.specs.Farm.{usable};
ghost use Rattle.lb_desk_model.specs.Installs.{IsSheetAt};
ghost use Rattle.lb_desk_model.specs.Seen.{Steps, named_server, view_seen};
ghost use Rattle.pin_table.specs.Kinds.{ArePinCounts};

use crate::backend_core::Core;
use dual_cert_plan::Sheet;
use lb_desk_model::{Event, Reply, Shared};
use lb_types::{Name, ServerId};
use pin_groups::sheet_of;
use pin_set::{PinCount, ViewServer};
use server_state::Farm;
use std::alloc::{AllocError, Global};
use std::hash::BuildHasher;

impl<S: BuildHasher> Core<S> {
    /// The sheet that a planner needs, with the table's version: the servers, and how many pins there are of each kind, whose
    /// permitted servers are those that are usable now.
    ///
    /// It costs a step for each server, and for each place, wanted servers and cost that pins have a binary search among the
    /// sheet's groups. The cost doesn't depend on how many pins there are. It allocates memory for the sheet and for the counts; the
    /// only error is out of memory. The version is at most 2^63.
    pub fn snapshot(&self, alloc: Global) -> Result<Reply, AllocError>
        requires { self.now.shown.version ≤ 2 ^ 63 }
        ensures steps { IfOk result (λ reply. Steps self.now.shown Event.Snapshot reply self.now.shown) }
    {
        let counts = self.parts.table.pin_counts(alloc)?;
        let sheet = self.sheet_from(alloc, &counts)?;
        Ok(Reply::Sheet(Shared::new(alloc, sheet)?))
    }

    /// The sheet of the view, made of counts of the pins.
    pub(crate) fn sheet_from(&self, alloc: Global, counts: &[PinCount]) -> Result<Sheet, AllocError>
        requires version { self.now.shown.version ≤ 2 ^ 63 }
        requires counted { ArePinCounts self.now.shown.pins counts.now }
        ensures exact { IfOk result (λ sheet.
            IsSheetAt (view_seen self.now.shown) self.now.shown.version sheet) }
        ensures groups { IfOk result (λ sheet.
            AreGroupsOfCounts (usable self.now.shown.farm) sheet.groups counts.now) }
    {
        let farm = &self.parts.farm;
        let servers = seen_servers(alloc, &self.parts.names, farm)?;
        let version = self.parts.table.version();
        sheet_of(alloc, counts, farm.usable(), &servers, version)
    }
}

/// The servers, as planners see them.
pub(crate) fn seen_servers(
    alloc: Global,
    names: &[Name],
    farm: &Farm,
) -> Result<Vec<ViewServer>, AllocError>
    requires few { length names.now ≤ MAX_SERVERS }
    requires whole { length names.now ≡ length farm.now.servers }
    ensures { IfOk result (λ seen. seen.items ≡ map named_server (zip names.now farm.now.servers)) }
{
    let mut seen = Vec::new(alloc);
    for (i, name) in names.iter().enumerate() {
        seen.push(ViewServer {
            name: *name,
            capacity: farm.capacity(ServerId::new(i as u8)),
        })?;
    }
    Ok(seen)
}

//! Plans that are installed.
ghost use Rattle.std.specs.Prelude.{◌≡◌, ℕ, ◌^◌, ◌<◌, ◌≤◌, IfOk, OnErr, map, slice_index};
ghost use Rattle.std.specs.List.{zip};
ghost use Rattle.lb_types.specs.declared.limits.TheConstants.{MAX_PINS, MAX_SERVERS};
ghost use Rattle.pin_set.specs.Rows.{rows_load, rows_pins};
ghost use Rattle.lb_desk_model.specs.Installs.{JudgesAt};
ghost use Rattle.lb_desk_model.specs.Seen.{Steps, named_server, view_seen};
ghost use Rattle.lb_desk_core.specs.Core.{IsReached};
ghost use Rattle.lb_desk_core.specs.PlacesPins.{PlacesPins};

use crate::backend_core::Core;
use crate::events::count;
use crate::parts::Parts;
use crate::sheets::seen_servers;
use cert_check::CheckFault;
use dual_cert_plan::Plan;
use lb_desk_model::{Event, Refusal, Reply};
use lb_types::MAX_SERVERS;
use lb_types_pins::Row;
use pin_install::install;
use pin_set::{Score, ViewServer};
use std::alloc::{AllocError, Global};
use std::hash::BuildHasher;

impl<S: BuildHasher> Core<S> {
    /// Makes the moves of the plan, and answers its score; each pin is then where the plan sends it. It answers 70 if the plan has
    /// another version than the table, else 71 with the check's fault if the plan fails the check against the sheet of the view. In
    /// both cases nothing has changed.
    ///
    /// It costs what the sheet, the check and sharing out the moves cost, which don't grow with the pins, and then one walk over the
    /// pins. The walk hashes no name, and mostly looks at two moves for each pin. All but the walk allocates. The only error is out
    /// of memory, and then nothing has changed.
    pub fn install(&mut self, alloc: Global, plan: &Plan) -> Result<Reply, AllocError>
        requires { self.old.shown.version < 2 ^ 63 }
        ensures steps { IfOk result (λ reply. Steps self.old.shown (Event.Install plan.now) reply self.new.shown) }
        ensures err { OnErr result (self.new ≡ self.old) }
        ensures connections { self.new.shown.connections ≡ self.old.shown.connections }
        ensures uses { self.new.uses ≡ self.old.uses }
    {
        if plan.version() != self.parts.table.version() {
            return Ok(Reply::Refused(Refusal::Stale));
        }
        let servers = seen_servers(alloc, &self.parts.names, &self.parts.farm)?;
        match self.parts.install(alloc, &servers, plan)? {
            Ok(score) => {
                count(&mut self.parts.table, score.moved > 0);
                Ok(Reply::Installed(score))
            }
            Err(fault) => Ok(Reply::Refused(Refusal::Bad(fault))),
        }
    }
}

impl<S: BuildHasher> Parts<S> {
    /// Sends each pin where the plan says, if the check accepts it, and counts the pins at each server again. The version isn't
    /// counted yet.
    fn install(
        &mut self,
        alloc: Global,
        servers: &[ViewServer],
        plan: &Plan,
    ) -> Result<Result<Score, CheckFault>, AllocError>
        requires version { self.old.shown.version < 2 ^ 63 }
        requires reached { IsReached self.old.shown }
        requires servers { servers.now ≡ map named_server (zip self.old.shown.names self.old.shown.farm.servers) }
        ensures judged { IfOk result (λ verdict. JudgesAt (view_seen self.old.shown) self.old.shown.version plan.now verdict) }
        ensures placed { IfOk result (λ verdict. IfOk verdict (λ score.
            PlacesPins plan.now score self.old.shown self.new.shown)) }
        ensures refused { IfOk result (λ verdict. OnErr verdict (self.new ≡ self.old)) }
        ensures err { OnErr result (self.new ≡ self.old) }
        ensures uses { self.new.uses ≡ self.old.uses }
    {
        let verdict = install(alloc, &mut self.table, self.farm.usable(), servers, plan)?;
        if verdict.is_ok() {
            let loads = loads(plan.rows());
            self.book.reload(&loads[..self.names.len()]);
        }
        Ok(verdict)
    }
}

/// How many pins the rows send to each server.
fn loads(rows: &[Row]) -> [u32; MAX_SERVERS]
    requires { rows_pins rows.now ≤ MAX_PINS }
    ensures { (server : ℕ) → server < MAX_SERVERS → slice_index result server ≡ rows_load rows.now server }
{
    let mut loads = [0; MAX_SERVERS];
    for row in rows {
        if let Some(server) = row.new_place {
            loads[server.index()] += row.count;
        }
    }
    loads
}

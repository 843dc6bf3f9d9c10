ghost use Rattle.std.specs.Prelude.{◌≡◌, ◌++◌, []};
ghost use Rattle.lb_desk_model.specs.Backends.{no_backend, opened_backend};
ghost use Rattle.lb_desk_ports.specs.Movers.{snapshot_entries, installing_entries, PlansNow, IsPlanFor};

use crate::log::Log;
use crate::{Installing, Mover, Refused};
use dual_cert_plan::{Plan, Sheet};
use lb_desk_model::{Entry, Event, Reply, Shared};
use pin_set::Score;
use std::alloc::Global;

/// What a `ScriptedMover` answers.
#[derive(Clone, Copy, Debug, PartialEq, Eq)]
pub struct MoverScript<'a> {
    /// To the plans that are handed in, in turn. Those after the last are installed.
    pub installs: &'a [Installing],
    /// The score of a plan that is installed after these, or at once.
    pub score: Score,
    /// The event that is refused, counted from 0, and how.
    pub refusing: Option<(u64, Refused)>,
}

/// A mover for tests, which answers by a script and keeps its entries. Each sheet that it gives is the same, and so is each
/// plan that it makes. Out of memory is a refusal.
#[derive(Debug, Drop)]
pub struct ScriptedMover<'a> {
    script: MoverScript<'a>,
    alloc: Global,
    sheet: Shared<Sheet>,
    plan: Shared<Plan>,
    log: Log,
    planned_now: u64,
    ghost fits: { IsPlanFor sheet plan },
}

impl<'a> ScriptedMover<'a> {
    /// A mover that nobody called yet, with its sheet and a plan for that.
    pub fn new(
        alloc: Global,
        sheet: Shared<Sheet>,
        plan: Shared<Plan>,
        script: MoverScript<'a>,
    ) -> Self
        requires { IsPlanFor sheet plan }
        ensures entries { ⟦<ScriptedMover<'a> as Mover<()>>⟧.entries result ≡ [] }
        ensures refusals { ⟦<ScriptedMover<'a> as Mover<()>>⟧.refusals result ≡ 0 }
        ensures planned_now { ⟦<ScriptedMover<'a> as Mover<()>>⟧.planned_now result ≡ 0 }
    {
        ScriptedMover {
            log: Log::new(alloc, script.refusing),
            planned_now: 0,
            script,
            alloc,
            sheet,
            plan,
        }
    }

    /// What was asked, and what was replied.
    pub fn entries(&self) -> &[Entry]
        ensures { result.now ≡ ⟦<ScriptedMover<'a> as Mover<()>>⟧.entries self.now }
    {
        &self.log.entries
    }

    /// How many calls were refused.
    pub fn refusals(&self) -> u64
        ensures { result ≡ ⟦<ScriptedMover<'a> as Mover<()>>⟧.refusals self.now }
    {
        self.log.refusals
    }

    /// How often it was asked to plan while everyone else waits.
    pub fn planned_now(&self) -> u64
        ensures { result ≡ ⟦<ScriptedMover<'a> as Mover<()>>⟧.planned_now self.now }
    {
        self.planned_now
    }

    // The answer to the next plan.
    fn next_install(&mut self) -> Installing
        ensures log { self.new.log ≡ self.old.log }
        ensures planned_now { self.new.planned_now ≡ self.old.planned_now }
    {
        match self.script.installs.split_first() {
            Some((first, rest)) => {
                self.script.installs = rest;
                *first
            }
            None => Installing::Installed(self.script.score),
        }
    }

    fn take_sheet(&mut self) -> Result<Shared<Sheet>, Refused>
        ensures entries { self.new.log.entries.items ≡ self.old.log.entries.items ++ snapshot_entries result }
        ensures refusals { self.new.log.refusals ≡ self.old.log.refusals }
        ensures planned_now { self.new.planned_now ≡ self.old.planned_now }
    {
        let kept = self.sheet.clone()?;
        let given = self.sheet.clone()?;
        self.log.add(Event::Snapshot, Reply::Sheet(kept))?;
        Ok(given)
    }

    fn take_plan(&mut self, plan: Plan) -> Result<Installing, Refused>
        ensures entries { self.new.log.entries.items ≡ self.old.log.entries.items ++ installing_entries plan result }
        ensures refusals { self.new.log.refusals ≡ self.old.log.refusals }
        ensures planned_now { self.new.planned_now ≡ self.old.planned_now }
    {
        let installing = self.next_install();
        let plan = Shared::new(self.alloc, plan)?;
        self.log.add(Event::Install(plan), installing.reply())?;
        Ok(installing)
    }

    // Both entries, or none.
    fn move_now(&mut self) -> Result<Score, Refused>
        ensures entries { PlansNow self.old.log.entries.items self.new.log.entries.items result }
        ensures refusals { self.new.log.refusals ≡ self.old.log.refusals }
        ensures planned_now { self.new.planned_now ≡ self.old.planned_now }
    {
        let sheet = self.sheet.clone()?;
        let plan = self.plan.clone()?;
        self.log.may_add()?;
        self.log.may_add()?;
        self.log.entries.reserve(2)?;
        self.log.entries.push_reserved(Entry {
            event: Event::Snapshot,
            reply: Reply::Sheet(sheet),
        });
        self.log.entries.push_reserved(Entry {
            event: Event::Install(plan),
            reply: Reply::Installed(self.script.score),
        });
        Ok(self.script.score)
    }
}

impl<R> Mover<R> for ScriptedMover<'_> {
    ghost backend = { λ mover. opened_backend 0 no_backend 0 };

    ghost entries = { λ mover. mover.log.entries.items };

    ghost refusals = { λ mover. mover.log.refusals };

    ghost planned_now = { λ mover. mover.planned_now };

    fn snapshot(&mut self, _rt: &R) -> Result<Shared<Sheet>, Refused> {
        let answer = self.take_sheet();
        self.log.note(&answer);
        answer
    }

    fn install(&mut self, _rt: &R, plan: Plan) -> Result<Installing, Refused> {
        let answer = self.take_plan(plan);
        self.log.note(&answer);
        answer
    }

    fn plan_now(&mut self, _rt: &R) -> Result<Score, Refused> {
        self.planned_now = self.planned_now.saturating_add(1);
        let answer = self.move_now();
        self.log.note(&answer);
        answer
    }
}

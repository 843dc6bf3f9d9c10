ghost use Rattle.std.specs.Prelude.{◌≡◌, [], OnOk, IfOk};
ghost use Rattle.std.specs.Option.{option_copied};
ghost use Rattle.lb_desk_step.specs.Desk.{StandsAt};
ghost use Rattle.dual_cert.specs.PlanTexts.{plan_of_text};
ghost use Rattle.lb_desk_model.specs.declared.event.Event.TheVariants.{Install};
ghost use Rattle.lb_replay.specs.Answers.{AnswersEvent, AnswersPlanNow, AnswersText};
ghost use Rattle.lb_replay.specs.Days.{kept_sheet, opening_day, with_reply};
ghost use Rattle.lb_replay.specs.Steps.{Does};

use crate::answers::{print_reply, print_score, print_text_fault, print_worn};
use crate::farm::Farm;
use dual_cert::{ReadError, read_plan};
use dual_cert_plan::{Plan, Sheet};
use lb_answers::asked_server;
use lb_cli_faults::JobError;
use lb_desk_model::{Event, Reply, Shared};
use lb_desk_ports::Refused;
use lb_desk_step::Desk;
use lb_types_counted::Counted;
use std::alloc::{AllocError, Global};
use std::hash::BuildHasher;
use std::io::Write;
use std::marker::Model;

/// A backend's day, as far as a script has come.
#[derive(Drop)]
pub(crate) struct Day<H: BuildHasher> {
    pub(crate) desk: Desk<H>,
    /// The sheets of the snapshots so far, in their order.
    sheets: Vec<Shared<Sheet>>,
    alloc: Global,
}

impl<H: BuildHasher> Model for Day<H> {
    ghost use Rattle.lb_replay.specs.Days.{DayView};

    ghost Value = { DayView };

    ghost view = { λ d. record { desk = d.desk; sheets = d.sheets.items } };
}

impl<H: BuildHasher + Drop> Day<H> {
    /// The day before the script's first line.
    pub(crate) fn open(alloc: Global, farm: &Farm<'_>, hasher: H) -> Result<Self, AllocError>
        ensures opening { IfOk result (λ day. day ≡ opening_day farm.now) }
        ensures stands { IfOk result (λ day. StandsAt farm.now.backend [] day.desk) }
    {
        Ok(Day {
            desk: Desk::open(alloc, farm.backend, farm.own.journal(), hasher)?,
            sheets: Vec::new(alloc),
            alloc,
        })
    }
}

impl<H: BuildHasher> Day<H> {
    /// Hands in the event, and prints what the backend replies.
    pub(crate) fn take<W: Write>(
        &mut self,
        farm: &Farm<'_>,
        event: Event,
        out: &mut Counted<W>,
    ) -> Result<(), JobError>
        ensures { OnOk result (Does (AnswersEvent farm.now self.old event) self.new out.old.contents out.new.contents) }
    {
        let asked = asked_server(&event);
        match self.desk.step(event) {
            Ok(reply) => {
                self.keep(&reply)?;
                print_reply(farm, asked, &reply, out)
            }
            Err(Refused::Worn) => print_worn(out),
            Err(Refused::Memory) => Err(JobError::OutOfMemory),
        }
    }

    /// Keeps the sheet, if the reply is one.
    fn keep(&mut self, reply: &Reply) -> Result<(), AllocError>
        ensures sheets { OnOk result (self.new.sheets ≡ with_reply self.old.sheets reply.now) }
        ensures desk { self.new.desk ≡ self.old.desk }
    {
        if let Reply::Sheet(sheet) = reply {
            self.sheets.push(sheet.clone()?)?;
        }
        Ok(())
    }

    /// Installs a plan for what is now, and prints its score.
    pub(crate) fn plan_now<W: Write>(
        &mut self,
        farm: &Farm<'_>,
        out: &mut Counted<W>,
    ) -> Result<(), JobError>
        ensures { OnOk result (Does (AnswersPlanNow farm.now self.old) self.new out.old.contents out.new.contents) }
    {
        let score = match self.desk.plan_now() {
            Ok(score) => score,
            Err(Refused::Worn) => return print_worn(out),
            Err(Refused::Memory) => return Err(JobError::OutOfMemory),
        };
        print_score(farm, score, out)
    }

    /// Hands in the plan, and prints what the backend replies.
    pub(crate) fn install<W: Write>(
        &mut self,
        farm: &Farm<'_>,
        plan: Plan,
        out: &mut Counted<W>,
    ) -> Result<(), JobError>
        ensures { OnOk result (Does (AnswersEvent farm.now self.old (Install plan)) self.new out.old.contents out.new.contents) }
    {
        let plan = Shared::new(self.alloc, plan)?;
        self.take(farm, Event::Install(plan), out)
    }

    /// Hands in the plan of a text, or prints the text's first fault.
    pub(crate) fn install_text<W: Write>(
        &mut self,
        farm: &Farm<'_>,
        text: &[u8],
        out: &mut Counted<W>,
    ) -> Result<(), JobError>
        ensures { OnOk result (Does (AnswersText farm.now self.old (plan_of_text text.now)) self.new out.old.contents out.new.contents) }
    {
        match read_plan(self.alloc, text) {
            Ok(plan) => self.install(farm, plan, out),
            Err(ReadError::Fault(fault)) => print_text_fault(fault, out),
            Err(ReadError::Memory) => Err(JobError::OutOfMemory),
        }
    }

    /// The sheet of the snapshot of this number, from 1 on.
    pub(crate) fn kept_sheet(&self, number: u64) -> Option<&Shared<Sheet>>
        ensures { option_copied result ≡ kept_sheet self.now.sheets number }
    {
        let place = number.checked_sub(1)?;
        self.sheets.get(place as usize)
    }

    /// The memory that plans and tables are copied to.
    pub(crate) fn alloc(&self) -> Global {
        self.alloc
    }
}

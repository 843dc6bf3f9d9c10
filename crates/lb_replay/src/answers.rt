ghost use Rattle.std.specs.Prelude.{◌≡◌, ◌++◌, Some, None, OnOk, IfOk, false, is_none, codes};
ghost use Rattle.std.specs.Io.KnownBytes.{Appends};
ghost use Rattle.lb_answers.specs.Answers.{answer_text};
ghost use Rattle.lb_desk_ports.specs.Movers.{IsPlanFor};
ghost use Rattle.command_socket_words.specs.Faults.{fault_text};
ghost use Rattle.dual_cert.specs.Faults.{fault_text as text_fault};
ghost use Rattle.lb_desk_model.specs.declared.reply.Reply.TheVariants.{Installed};
ghost use Rattle.lb_replay.specs.Answers.{Answers, AnswersInstall, is_bad, reply_line, worn_line};
ghost use Rattle.lb_replay.specs.Days.{kept_sheet};
ghost use Rattle.lb_replay.specs.Steps.{Does};

use crate::day::Day;
use crate::farm::Farm;
use crate::shows::show;
use command_socket_words::CommandFault;
use dual_cert::TextFault;
use dual_cert_plan::{Plan, Sheet};
use flow_planner::plan;
use lb_answers::{Answer, write_answer};
use lb_cli_faults::JobError;
use lb_desk_model::{Event, Reply};
use lb_script::ScriptLine;
use lb_types::Place;
use lb_types_counted::Counted;
use pin_set::Score;
use std::alloc::{AllocError, Global};
use std::hash::BuildHasher;
use std::io::Write;

/// Whether nothing can be answered: the script asks for a plan of a snapshot that it hasn't taken.
pub(crate) fn is_bad<H: BuildHasher>(day: &Day<H>, said: &ScriptLine) -> bool
    ensures { result ≡ is_bad day.now (Some said.now) }
{
    match said {
        ScriptLine::Install(number) => day.kept_sheet(*number).is_none(),
        _ => false,
    }
}

/// Does what the script asks for, and prints the answer. `text` is the piece of the script that says it.
pub(crate) fn answer<H: BuildHasher, W: Write>(
    day: &mut Day<H>,
    farm: &Farm<'_>,
    said: ScriptLine,
    text: &[u8],
    out: &mut Counted<W>,
) -> Result<(), JobError>
    requires { is_bad day.old (Some said) ≡ false }
    ensures { OnOk result (Does (Answers farm.now day.old text.now (Some said)) day.new out.old.contents out.new.contents) }
{
    match said {
        ScriptLine::Blank => Ok(()),
        ScriptLine::Event(event) => day.take(farm, event, out),
        ScriptLine::Snapshot => day.take(farm, Event::Snapshot, out),
        ScriptLine::Install(number) => install_kept(day, farm, number, out),
        ScriptLine::PlanNow => day.plan_now(farm, out),
        ScriptLine::PlanText => day.install_text(farm, text, out),
        ScriptLine::Show(what, place) => show(day, farm, what, place, out),
        ScriptLine::Refused(fault) => tell_refusal(fault, out),
    }
}

/// Prints why an operator's command can't be taken.
#[tactic(auto, unfolding(lb_answers::specs::Answers::answer_text))]
fn tell_refusal<W: Write>(fault: CommandFault, out: &mut Counted<W>) -> Result<(), JobError>
    ensures { OnOk result (Appends out.old.contents out.new.contents (fault_text fault ++ codes "\n")) }
{
    print(out, &Answer::CommandFault(fault))
}

/// Hands in a plan for the sheet of the snapshot of this number, which was taken.
fn install_kept<H: BuildHasher, W: Write>(
    day: &mut Day<H>,
    farm: &Farm<'_>,
    number: u64,
    out: &mut Counted<W>,
) -> Result<(), JobError>
    requires { is_none (kept_sheet day.old.sheets number) ≡ false }
    ensures { OnOk result (Does (AnswersInstall farm.now day.old (kept_sheet day.old.sheets number)) day.new
        out.old.contents out.new.contents) }
{
    let Some(sheet) = day.kept_sheet(number) else {
        unreachable!();
    };
    let plan = plan_for(day.alloc(), &**sheet)?;
    day.install(farm, plan, out)
}

/// A plan for the sheet, which the check accepts for it. It costs a whole planning.
fn plan_for(alloc: Global, sheet: &Sheet) -> Result<Plan, AllocError>
    ensures { IfOk result (IsPlanFor sheet.now) }
{
    Ok(plan(alloc, sheet)?.into_plan())
}

/// Prints the reply to an event that names this server, or none.
#[tactic(auto, unfolding(lb_answers::specs::Answers::answer_text))]
pub(crate) fn print_reply<W: Write>(
    farm: &Farm<'_>,
    asked: Place,
    reply: &Reply,
    out: &mut Counted<W>,
) -> Result<(), JobError>
    ensures { OnOk result (Appends out.old.contents out.new.contents (reply_line farm.now asked reply.now)) }
{
    print(out, &Answer::Reply(&farm.named(), asked, reply))
}

/// Prints the score of a plan that was installed.
pub(crate) fn print_score<W: Write>(
    farm: &Farm<'_>,
    score: Score,
    out: &mut Counted<W>,
) -> Result<(), JobError>
    ensures { OnOk result (Appends out.old.contents out.new.contents (reply_line farm.now None (Installed score))) }
{
    print_reply(farm, None, &Reply::Installed(score), out)
}

/// Prints the first fault of a plan's text.
#[tactic(auto, unfolding(lb_answers::specs::Answers::answer_text))]
pub(crate) fn print_text_fault<W: Write>(
    fault: TextFault,
    out: &mut Counted<W>,
) -> Result<(), JobError>
    ensures { OnOk result (Appends out.old.contents out.new.contents (text_fault fault ++ codes "\n")) }
{
    print(out, &Answer::TextFault(fault))
}

/// Prints that the backend takes no event more.
#[tactic(auto, unfolding(lb_answers::specs::Answers::answer_text))]
pub(crate) fn print_worn<W: Write>(out: &mut Counted<W>) -> Result<(), JobError>
    ensures { OnOk result (Appends out.old.contents out.new.contents worn_line) }
{
    print(out, &Answer::Worn)
}

/// Prints the answer.
pub(crate) fn print<W: Write>(out: &mut Counted<W>, answer: &Answer<'_>) -> Result<(), JobError>
    ensures { OnOk result (Appends out.old.contents out.new.contents (answer_text answer.now)) }
{
    match write_answer(answer, out) {
        Ok(()) => Ok(()),
        Err(_) => Err(JobError::CannotWrite),
    }
}

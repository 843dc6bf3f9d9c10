//! The sheet of the moment, and a plan for it that isn't made.
ghost use Rattle.std.specs.Prelude.{◌≡◌, ◌++◌, codes, Ok, IfOk};
ghost use Rattle.dual_cert_sheet.specs.SheetSpellings.{sheet_spelling};
ghost use Rattle.command_socket_serve.specs.Desks.{desk_seen};
ghost use Rattle.command_socket_serve.specs.Outcomes.{PrintsOn, Says};
ghost use Rattle.command_socket_serve.specs.Tasks.{IsDryPlan, IsPlanOf, IsSheet, TakesSheet};
ghost use Rattle.lb_answers.specs.Scores.{score_text};

use crate::printing::{Printed, print, print_refused, print_text};
use cert_check::check;
use dual_cert_plan::Sheet;
use dual_cert_sheet_write::write_sheet;
use flow_planner::plan;
use lb_answers::Answer;
use lb_cli_tables::tables_text;
use lb_desk_ports::Refused;
use lb_desk_steer::Steer;
use lb_types_counted::Counted;
use pin_set::Score;
use std::alloc::{AllocError, Global};
use std::io::Write;

/// Prints the sheet of the moment.
pub(crate) fn show_sheet<R, S: Steer<R>, W: Write>(
    rt: &R,
    desk: &mut S,
    out: &mut Counted<W>,
    sent: Printed,
) -> Printed
    ensures { Says (TakesSheet IsSheet (desk_seen S.entries S.planned_now S.backend S.sights desk.old) (desk_seen S.entries S.planned_now S.backend S.sights desk.new))
        out.old sent out.new result }
{
    match desk.snapshot(rt) {
        Ok(sheet) => print_sheet(out, sent, &*sheet),
        Err(refused) => print_refused(out, sent, refused),
    }
}

/// Prints the sheet, where no write failed so far.
fn print_sheet<W: Write>(out: &mut Counted<W>, sent: Printed, sheet: &Sheet) -> Printed
    ensures { PrintsOn out.old sent out.new result (sheet_spelling sheet.now) }
{
    sent?;
    write_sheet(sheet, out)
}

/// Plans for a sheet of the moment, and prints what making the plan's moves would come to: its score, and its tables. No move is made.
/// It costs a whole planning, and no one waits for it.
pub(crate) fn plan_dry<R, S: Steer<R>, W: Write>(
    rt: &R,
    alloc: Global,
    desk: &mut S,
    out: &mut Counted<W>,
    sent: Printed,
) -> Printed
    ensures { Says (TakesSheet IsDryPlan (desk_seen S.entries S.planned_now S.backend S.sights desk.old) (desk_seen S.entries S.planned_now S.backend S.sights desk.new))
        out.old sent out.new result }
{
    match desk.snapshot(rt) {
        Ok(sheet) => print_plan_of(alloc, &*sheet, out, sent),
        Err(refused) => print_refused(out, sent, refused),
    }
}

/// Prints the score and the tables of a plan for the sheet.
#[tactic(auto, using(crate::proofs::Printings::prints_then))]
fn print_plan_of<W: Write>(
    alloc: Global,
    sheet: &Sheet,
    out: &mut Counted<W>,
    sent: Printed,
) -> Printed
    ensures { Says (IsDryPlan (Ok sheet.now)) out.old sent out.new result }
{
    let Ok(dry) = DryPlan::of(alloc, sheet) else {
        return print_refused(out, sent, Refused::Memory);
    };
    let sent = print_score(out, sent, dry.score);
    print_text(out, sent, &dry.tables)
}

/// Prints the score of a plan.
#[tactic(auto, unfolding(lb_answers::specs::Answers::answer_text))]
fn print_score<W: Write>(out: &mut Counted<W>, sent: Printed, score: Score) -> Printed
    ensures { PrintsOn out.old sent out.new result (score_text score ++ codes "\n") }
{
    print(out, sent, &Answer::Evacuated(score))
}

/// What is printed of a plan that isn't made.
#[derive(Drop)]
struct DryPlan {
    score: Score,
    tables: Vec<u8>,
}

impl DryPlan {
    /// That of a best plan for the sheet.
    fn of(alloc: Global, sheet: &Sheet) -> Result<DryPlan, AllocError>
        ensures { IfOk result (λ dry. IsPlanOf sheet.now ((score_text dry.score ++ codes "\n") ++ dry.tables.items)) }
    {
        let planned = plan(alloc, sheet)?;
        let Ok(score) = check(sheet, planned.plan()) else {
            unreachable!();
        };
        Ok(DryPlan {
            score,
            tables: tables_text(alloc, planned.plan())?,
        })
    }
}

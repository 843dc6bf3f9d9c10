ghost use Rattle.command_socket_serve.specs.Answers.{Shows};
ghost use Rattle.command_socket_serve.specs.Desks.{desk_seen};
ghost use Rattle.command_socket_serve.specs.Outcomes.{Says};
ghost use Rattle.command_socket_words.specs.declared.command.Shown.TheVariants as Show;

use crate::printing::{Printed, print};
use command_socket::Shown;
use lb_answers::{Answer, NamedBackend, last_installed};
use lb_desk_steer::Steer;
use lb_types_counted::Counted;
use std::alloc::Global;
use std::io::Write;

/// Prints what an operator asks to see of a backend. It costs a copy of the backend's pins or of its journal.
pub(crate) fn show<R, S: Steer<R>, W: Write>(
    rt: &R,
    alloc: Global,
    named: &NamedBackend<'_>,
    desk: &mut S,
    what: Shown,
    out: &mut Counted<W>,
    sent: Printed,
) -> Printed
    ensures { Says (Shows named.now what (desk_seen S.entries S.planned_now S.backend S.sights desk.old) (desk_seen S.entries S.planned_now S.backend S.sights desk.new))
        out.old sent out.new result }
{
    match what {
        Shown::Table => show_table(rt, alloc, named, desk, out, sent),
        Shown::Plan => show_plan(rt, alloc, desk, named, out, sent),
        Shown::Journal => show_journal(rt, alloc, named, desk, out, sent),
    }
}

/// Prints the pins of a backend's table.
#[tactic(auto, unfolding(lb_answers::specs::Answers::answer_text))]
fn show_table<R, S: Steer<R>, W: Write>(
    rt: &R,
    alloc: Global,
    named: &NamedBackend<'_>,
    desk: &mut S,
    out: &mut Counted<W>,
    sent: Printed,
) -> Printed
    ensures { Says (Shows named.now Show.Table (desk_seen S.entries S.planned_now S.backend S.sights desk.old) (desk_seen S.entries S.planned_now S.backend S.sights desk.new))
        out.old sent out.new result }
{
    match desk.rows(rt, alloc) {
        Ok(pins) => print(out, sent, &Answer::Table(named, &pins)),
        Err(_) => print(out, sent, &Answer::OutOfMemory),
    }
}

/// Prints the plan that a backend installed last, if its journal still keeps it.
#[tactic(auto, unfolding(lb_answers::specs::Answers::answer_text))]
fn show_plan<R, S: Steer<R>, W: Write>(
    rt: &R,
    alloc: Global,
    desk: &mut S,
    named: &NamedBackend<'_>,
    out: &mut Counted<W>,
    sent: Printed,
) -> Printed
    ensures { Says (Shows named.now Show.Plan (desk_seen S.entries S.planned_now S.backend S.sights desk.old) (desk_seen S.entries S.planned_now S.backend S.sights desk.new))
        out.old sent out.new result }
{
    match desk.journal(rt, alloc) {
        Ok(journal) => print(out, sent, &Answer::Plan(last_installed(&journal.entries))),
        Err(_) => print(out, sent, &Answer::OutOfMemory),
    }
}

/// Prints the entries that a backend's journal keeps.
#[tactic(auto, unfolding(lb_answers::specs::Answers::answer_text))]
fn show_journal<R, S: Steer<R>, W: Write>(
    rt: &R,
    alloc: Global,
    named: &NamedBackend<'_>,
    desk: &mut S,
    out: &mut Counted<W>,
    sent: Printed,
) -> Printed
    ensures { Says (Shows named.now Show.Journal (desk_seen S.entries S.planned_now S.backend S.sights desk.old) (desk_seen S.entries S.planned_now S.backend S.sights desk.new))
        out.old sent out.new result }
{
    match desk.journal(rt, alloc) {
        Ok(journal) => {
            let answer = Answer::Journal(named, journal.first, &journal.entries);
            print(out, sent, &answer)
        }
        Err(_) => print(out, sent, &Answer::OutOfMemory),
    }
}

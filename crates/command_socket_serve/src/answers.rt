ghost use Rattle.std.specs.Prelude.{◌≡◌, length};
ghost use Rattle.command_socket_serve.specs.Answers.{Answers, CarriesOut, CarriesOutPlain, Changes, NamesOneOf, NamesOneOfPlain, Plans, is_done, looked_up};
ghost use Rattle.command_socket_serve.specs.Desks.{desk_seen};
ghost use Rattle.command_socket_serve.specs.Lines.{ended};
ghost use Rattle.command_socket_serve.specs.Outcomes.{Does, Says, PrintsOn};

use crate::printing::{Printed, print, print_fault, print_refused, print_reply};
use crate::shows::show;
use crate::tasks::ask;
use crate::{Console, Told};
use command_socket::{CommandFault, Resolved, SocketCommand, SocketResolved, look_up_socket};
use lb_answers::{Answer, NamedBackend};
use lb_config::Config;
use lb_desk_evacuate::{Evacuation, evacuate};
use lb_desk_model::Reply;
use lb_desk_ports::Gate;
use lb_desk_steer::Steer;
use lb_types_counted::Counted;
use server_state::Change;
use std::alloc::Global;
use std::io::Write;

/// Carries out a command, or reports its fault, and prints its answer without the empty line after it.
pub(crate) fn answer<R, S: Steer<R>, G: Gate<R>, T: Told, W: Write>(
    rt: &R,
    alloc: Global,
    console: &Console<'_, G>,
    desks: &mut [S],
    told: &mut T,
    said: &Result<SocketCommand<'_>, CommandFault>,
    out: &mut Counted<W>,
    sent: Printed,
) -> Printed
    requires { length desks.old ≡ length console.now.config.backends }
    ensures answers { Does (Answers (desk_seen S.entries S.planned_now S.backend S.sights) console.now (looked_up console.now.config said.now) desks.old desks.new)
        (T.told told.old) (T.told told.new) out.old sent out.new result }
    ensures seats { length desks.new ≡ length desks.old }
{
    match look_up_said(console.config(), said) {
        Ok(command) => carry_out(rt, alloc, console, desks, told, command, out, sent),
        Err(fault) => print_fault(out, sent, fault),
    }
}

/// The command with its backend and its server, or its fault.
fn look_up_said<'a>(
    config: &Config,
    said: &Result<SocketCommand<'a>, CommandFault>,
) -> Result<SocketResolved<'a>, CommandFault>
    ensures { result ≡ looked_up config.now said.now }
{
    match said {
        Ok(command) => look_up_socket(config, command),
        Err(fault) => Err(*fault),
    }
}

/// Carries out a command whose names are known.
fn carry_out<R, S: Steer<R>, G: Gate<R>, T: Told, W: Write>(
    rt: &R,
    alloc: Global,
    console: &Console<'_, G>,
    desks: &mut [S],
    told: &mut T,
    command: SocketResolved<'_>,
    out: &mut Counted<W>,
    sent: Printed,
) -> Printed
    requires seats { length desks.old ≡ length console.now.config.backends }
    requires names { NamesOneOf (length console.now.config.backends) command }
    ensures carries_out { Does (CarriesOut (desk_seen S.entries S.planned_now S.backend S.sights) console.now command.entry desks.old desks.new)
        (T.told told.old) (T.told told.new) out.old sent out.new result }
    ensures seats { length desks.new ≡ length desks.old }
{
    match command {
        SocketResolved::Plain(command) => {
            carry_out_plain(rt, alloc, console, desks, told, command, out, sent)
        }
        SocketResolved::Asked(place, task) => {
            let named = &console.names()[place];
            let desk = &mut desks[place];
            ask(rt, alloc, named, console.moment(), desk, &task, out, sent)
        }
    }
}

/// Carries out a command that scripts take too, whose names are known.
fn carry_out_plain<R, S: Steer<R>, G: Gate<R>, T: Told, W: Write>(
    rt: &R,
    alloc: Global,
    console: &Console<'_, G>,
    desks: &mut [S],
    told: &mut T,
    command: Resolved,
    out: &mut Counted<W>,
    sent: Printed,
) -> Printed
    requires seats { length desks.old ≡ length console.now.config.backends }
    requires names { NamesOneOfPlain (length console.now.config.backends) command }
    ensures carries_out { Does (CarriesOutPlain (desk_seen S.entries S.planned_now S.backend S.sights) console.now command desks.old desks.new)
        (T.told told.old) (T.told told.new) out.old sent out.new result }
    ensures seats { length desks.new ≡ length desks.old }
{
    match command {
        Resolved::Change(place, asked) => {
            let named = &console.names()[place];
            let desk = &mut desks[place];
            change(rt, named, place, desk, told, &asked, out, sent)
        }
        Resolved::Plan(place) => {
            let tries = u32::from(console.config().tries());
            let desk = &mut desks[place];
            plan(rt, alloc, desk, console.gate(), tries, out, sent)
        }
        Resolved::Show(what, place) => {
            let named = &console.names()[place];
            let desk = &mut desks[place];
            show(rt, alloc, named, desk, what, out, sent)
        }
        Resolved::Stop => sent,
    }
}

/// Asks for a change to a server of the backend at the place. Where the change is made, `told` is notified; else the reason is
/// printed.
fn change<R, S: Steer<R>, T: Told, W: Write>(
    rt: &R,
    named: &NamedBackend<'_>,
    place: usize,
    desk: &mut S,
    told: &mut T,
    asked: &Change,
    out: &mut Counted<W>,
    sent: Printed,
) -> Printed
    ensures { Does (Changes named.now place asked.now (desk_seen S.entries S.planned_now S.backend S.sights desk.old) (desk_seen S.entries S.planned_now S.backend S.sights desk.new))
        (T.told told.old) (T.told told.new) out.old sent out.new result }
{
    let reply = match desk.command(rt, *asked) {
        Ok(reply) => reply,
        Err(refused) => return print_refused(out, sent, refused),
    };
    if is_done(&reply) {
        told.changed(place);
        return sent;
    }
    print_reply(out, sent, named, Some(asked.server), &reply)
}

/// Whether the change is made.
fn is_done(reply: &Reply) -> bool
    ensures { result ≡ is_done reply.now }
{
    matches!(reply, Reply::Done)
}

/// Moves pins off the servers of a backend, and prints what that came to.
#[tactic(auto, unfolding(lb_answers::specs::Answers::answer_text))]
fn plan<R, S: Steer<R>, G: Gate<R>, W: Write>(
    rt: &R,
    alloc: Global,
    desk: &mut S,
    gate: &G,
    tries: u32,
    out: &mut Counted<W>,
    sent: Printed,
) -> Printed
    ensures { Says (Plans tries (desk_seen S.entries S.planned_now S.backend S.sights desk.old) (desk_seen S.entries S.planned_now S.backend S.sights desk.new))
        out.old sent out.new result }
{
    match evacuate(rt, alloc, desk, gate, tries) {
        Ok(Evacuation::Done(score)) => print(out, sent, &Answer::Evacuated(score)),
        Ok(Evacuation::AllStale) => print(out, sent, &Answer::AllStale),
        Err(refused) => print_refused(out, sent, refused),
    }
}

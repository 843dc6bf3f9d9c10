//! The pins of a key: printed, cleared, or set at a server.
ghost use Rattle.std.specs.Prelude.{◌≡◌, IfOk};
ghost use Rattle.command_socket_keys.specs.Keys.{key_in};
ghost use Rattle.command_socket_serve.specs.Desks.{desk_seen};
ghost use Rattle.command_socket_serve.specs.Outcomes.{PrintsOn, Says};
ghost use Rattle.command_socket_serve.specs.Tasks.{ChangesEach, ChangesKey, ChangesPin, OfWord, ShowsKey, event_of, is_changed, names_for, names_of, of_key, pin_text, server_of, type_of};
ghost use Rattle.lb_answers.specs.Tables.{rows_text};
ghost use Rattle.lb_desk_steer.specs.Steering.{AddsAt, KeepsSights};

use crate::printing::{Printed, print, print_fault, print_refused, print_reply};
use command_socket::{CommandFault, KeyWord, PinChange};
use command_socket_keys::read_key;
use lb_answers::{Answer, NamedBackend};
use lb_desk_model::{Reply, SetPin};
use lb_desk_ports::Refused;
use lb_desk_steer::Steer;
use lb_types::{Moment, Place, ServerSet};
use lb_types_counted::Counted;
use pin_set::{PinId, PinKey, TablePin};
use std::alloc::{AllocError, Global};
use std::io::Write;

/// What a pin costs that an operator makes: as much as one that no rule names.
const COST: u16 = 1;

/// Prints the pins of the key that the word is.
pub(crate) fn show_key<R, S: Steer<R>, W: Write>(
    rt: &R,
    alloc: Global,
    named: &NamedBackend<'_>,
    desk: &mut S,
    word: &KeyWord<'_>,
    out: &mut Counted<W>,
    sent: Printed,
) -> Printed
    ensures { Says (OfWord named.now word.now (ShowsKey named.now) (desk_seen S.entries S.planned_now S.backend S.sights desk.old) (desk_seen S.entries S.planned_now S.backend S.sights desk.new))
        out.old sent out.new result }
{
    let key = match key_in(alloc, named, word) {
        Ok(Some(key)) => key,
        Ok(None) => return print_fault(out, sent, CommandFault::UnknownCommand),
        Err(_) => return print_refused(out, sent, Refused::Memory),
    };
    let mut pins = match desk.rows(rt, alloc) {
        Ok(pins) => pins,
        Err(_) => return print_refused(out, sent, Refused::Memory),
    };
    let used = pins.len();
    keep_key(&mut pins, &key);
    print_rows(out, sent, named, used, &pins)
}

/// Prints these pins of a table that has so many.
#[tactic(auto, unfolding(lb_answers::specs::Answers::answer_text))]
fn print_rows<W: Write>(
    out: &mut Counted<W>,
    sent: Printed,
    named: &NamedBackend<'_>,
    used: usize,
    pins: &[TablePin],
) -> Printed
    ensures { PrintsOn out.old sent out.new result (rows_text named.now.name named.now.servers.now named.now.table used pins.now) }
{
    print(out, sent, &Answer::Rows(named, used, pins))
}

/// Changes the pins of the key that the word is, one after another. A key without a pin has one name, with which no servers are wanted.
pub(crate) fn change_key<R, S: Steer<R>, W: Write>(
    rt: &R,
    alloc: Global,
    named: &NamedBackend<'_>,
    moment: Moment,
    desk: &mut S,
    word: &KeyWord<'_>,
    change: &PinChange,
    out: &mut Counted<W>,
    sent: Printed,
) -> Printed
    ensures { Says (OfWord named.now word.now (ChangesKey named.now change.now moment) (desk_seen S.entries S.planned_now S.backend S.sights desk.old) (desk_seen S.entries S.planned_now S.backend S.sights desk.new))
        out.old sent out.new result }
{
    let key = match key_in(alloc, named, word) {
        Ok(Some(key)) => key,
        Ok(None) => return print_fault(out, sent, CommandFault::UnknownCommand),
        Err(_) => return print_refused(out, sent, Refused::Memory),
    };
    let mut pins = match desk.rows(rt, alloc) {
        Ok(pins) => pins,
        Err(_) => return print_refused(out, sent, Refused::Memory),
    };
    keep_key(&mut pins, &key);
    if pins.is_empty() {
        let want = ServerSet::empty();
        return change_pin(
            rt,
            named,
            moment,
            desk,
            &PinId { key, want },
            change,
            out,
            sent,
        );
    }
    change_each(rt, named, moment, desk, &pins, change, out, sent)
}

/// The key that the word is in the backend's table.
fn key_in(
    alloc: Global,
    named: &NamedBackend<'_>,
    word: &KeyWord<'_>,
) -> Result<Option<PinKey>, AllocError>
    ensures { IfOk result (λ key. key ≡ key_in (type_of named.now) word.now) }
{
    let kind = match named.table {
        Some(table) => Some(table.key_type),
        None => None,
    };
    read_key(alloc, kind, word.as_bytes())
}

/// Leaves the pins that have the key.
fn keep_key(pins: &mut Vec<TablePin>, key: &PinKey)
    ensures { pins.new.items ≡ of_key key.now pins.old.items }
{
    pins.retain(|kept| kept.pin.id.key == *key);
}

/// Changes the pins, one after another.
fn change_each<R, S: Steer<R>, W: Write>(
    rt: &R,
    named: &NamedBackend<'_>,
    moment: Moment,
    desk: &mut S,
    pins: &[TablePin],
    change: &PinChange,
    out: &mut Counted<W>,
    sent: Printed,
) -> Printed
    ensures { Says (ChangesEach named.now change.now moment (names_of pins.now) (desk_seen S.entries S.planned_now S.backend S.sights desk.old) (desk_seen S.entries S.planned_now S.backend S.sights desk.new))
        out.old sent out.new result }
{
    let mut printed = sent;
    for kept in pins {
        printed = change_pin(rt, named, moment, desk, &kept.pin.id, change, out, printed);
    }
    printed
}

/// Changes the pin of the name, and prints the reply unless the change is made.
fn change_pin<R, S: Steer<R>, W: Write>(
    rt: &R,
    named: &NamedBackend<'_>,
    moment: Moment,
    desk: &mut S,
    name: &PinId,
    change: &PinChange,
    out: &mut Counted<W>,
    sent: Printed,
) -> Printed
    ensures { Says (ChangesPin named.now change.now moment name.now (desk_seen S.entries S.planned_now S.backend S.sights desk.old) (desk_seen S.entries S.planned_now S.backend S.sights desk.new))
        out.old sent out.new result }
{
    let reply = match make_change(rt, moment, desk, name, change) {
        Ok(reply) => reply,
        Err(refused) => return print_refused(out, sent, refused),
    };
    if is_changed(&reply) {
        return sent;
    }
    print_reply(out, sent, named, server_of(change), &reply)
}

/// Asks the backend for the change. It is refused too when out of memory for a copy of the name.
fn make_change<R, S: Steer<R>>(
    rt: &R,
    moment: Moment,
    desk: &mut S,
    name: &PinId,
    change: &PinChange,
) -> Result<Reply, Refused>
    ensures entries { AddsAt moment (event_of change.now name.now moment) (S.entries desk.old) (S.entries desk.new) result }
    ensures planned_now { S.planned_now desk.new ≡ S.planned_now desk.old }
    ensures backend { S.backend desk.new ≡ S.backend desk.old }
    ensures sights { KeepsSights (S.sights desk.old) (S.sights desk.new) }
{
    let Ok(name) = copied(name) else {
        return Err(Refused::Memory);
    };
    match change {
        PinChange::Clear => desk.clear_pin(rt, name, moment),
        PinChange::Set(server) => {
            let pin = SetPin {
                name,
                server: *server,
                cost: COST,
                moment,
            };
            desk.set_pin(rt, pin)
        }
    }
}

/// A copy of the name.
fn copied(name: &PinId) -> Result<PinId, AllocError>
    ensures { IfOk result (λ copy. copy ≡ name.now) }
{
    name.clone()
}

/// Whether the pin is as the operator wants it.
fn is_changed(reply: &Reply) -> bool
    ensures { result ≡ is_changed reply.now }
{
    matches!(reply, Reply::Pinned(_) | Reply::Cleared)
}

/// The server that the change names.
fn server_of(change: &PinChange) -> Place
    ensures { result ≡ server_of change.now }
{
    match change {
        PinChange::Clear => None,
        PinChange::Set(server) => Some(*server),
    }
}

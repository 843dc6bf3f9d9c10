//! Entries of a journal.
ghost use Rattle.std.specs.Prelude.{◌≡◌, flat_map, filter_map};
ghost use Rattle.std.specs.Fmt.{decimal};
ghost use Rattle.std.specs.Option.{option_copied};
ghost use Rattle.dual_cert_write.specs.Sending.{Sends};
ghost use Rattle.lb_answers.specs.Journals.{entry_line, journal_text, plan_installed, last_installed};

use crate::events::{asked_server, send_event};
use crate::named_backend::NamedBackend;
use crate::replies::send_reply;
use dual_cert_plan::Plan;
use dual_cert_write::sending::{Sent, send};
use itoa::Buffer;
use lb_desk_model::{Entry, Event, Reply};
use lb_types_counted::Counted;
use std::io::Write;

/// The plan that was installed last, if one of the entries installed one. One walk over the entries.
pub fn last_installed(entries: &[Entry]) -> Option<&Plan>
    ensures { option_copied result ≡ last_installed entries.now }
{
    let mut last = None;
    for entry in entries {
        last = plan_installed(entry).or(last);
    }
    last
}

/// The plan of an install that was not refused.
fn plan_installed(entry: &Entry) -> Option<&Plan>
    ensures { option_copied result ≡ plan_installed entry.now.event entry.now.reply }
{
    match (&entry.event, &entry.reply) {
        (Event::Install(plan), Reply::Installed(_)) => Some(&**plan),
        _ => None,
    }
}

/// Sends a line for each entry, of which the first one has this number.
pub(crate) fn send_journal<W: Write>(
    out: &mut Counted<W>,
    sent: Sent,
    backend: &NamedBackend<'_>,
    first: u64,
    entries: &[Entry],
) -> Sent
    ensures { Sends out.old sent out.new result
        (journal_text backend.now.name backend.now.servers.now first entries.now) }
{
    let mut sent = sent;
    // In 128 bits no number is too large.
    let mut number = u128::from(first);
    for entry in entries {
        sent = send_entry(out, sent, backend, number, entry);
        number += 1;
    }
    sent
}

/// Sends the line of the entry of this number.
#[tactic(auto, unfolding(crate::specs::Journals::entry_line))]
fn send_entry<W: Write>(
    out: &mut Counted<W>,
    sent: Sent,
    backend: &NamedBackend<'_>,
    number: u128,
    entry: &Entry,
) -> Sent
    ensures { Sends out.old sent out.new result
        (entry_line backend.now.name backend.now.servers.now number entry.now) }
{
    let asked = asked_server(&entry.event);
    let mut digits = Buffer::new();
    let sent = send(out, sent, digits.format(number).as_bytes());
    let sent = send(out, sent, b" ");
    let sent = send_event(out, sent, &backend.name, backend.servers, &entry.event);
    let sent = send(out, sent, b" -> ");
    let sent = send_reply(out, sent, backend.servers, asked, &entry.reply);
    send(out, sent, b"\n")
}

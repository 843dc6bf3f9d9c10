//! Replies of a backend.
ghost use Rattle.std.specs.Prelude.{◌≡◌, sum_by};
ghost use Rattle.dual_cert_write.specs.Sending.{Sends};
ghost use Rattle.lb_answers.specs.Replies.{refusal_text, served_word, pinned_text, pinned_word, check_text, sheet_text, reply_text};

use crate::names::{send_labelled, send_server, send_server_behind};
use crate::scores::send_score;
use dual_cert_plan::Sheet;
use dual_cert_write::sending::{Sent, send};
use lb_desk_model::{BackendServer, PinnedAs, Refusal, Reply, ServedAs};
use lb_types::Place;
use lb_types_counted::Counted;
use rise_fall::Flip;
use server_state::Checked;
use std::io::Write;

/// Sends the words of a reply to an event that names this server, or none.
#[tactic(auto, unfolding(crate::specs::Replies::reply_text))]
pub(crate) fn send_reply<W: Write>(
    out: &mut Counted<W>,
    sent: Sent,
    servers: &[BackendServer],
    asked: Place,
    reply: &Reply,
) -> Sent
    ensures { Sends out.old sent out.new result (reply_text servers.now asked reply.now) }
{
    match reply {
        Reply::Served(server, served_as) => {
            let sent = send(out, sent, b"served ");
            let sent = send_server(out, sent, servers, *server);
            send(out, sent, served_word(*served_as))
        }
        Reply::Pinned(pinned_as) => send_pinned(out, sent, servers, asked, *pinned_as),
        Reply::NoTable => send(out, sent, b"no table"),
        Reply::Cleared => send(out, sent, b"cleared"),
        Reply::NoPin => send(out, sent, b"no pin"),
        Reply::Opened => {
            let sent = send(out, sent, b"opened");
            send_server_behind(out, sent, servers, asked)
        }
        Reply::Closed => {
            let sent = send(out, sent, b"closed");
            send_server_behind(out, sent, servers, asked)
        }
        Reply::Expired(pins) => send_labelled(out, sent, b"expired ", *pins),
        Reply::Checked(checked) => send(out, sent, check_text(*checked)),
        Reply::Done => send(out, sent, b"done"),
        Reply::Sheet(sheet) => send_sheet(out, sent, sheet),
        Reply::Installed(score) => {
            let sent = send(out, sent, b"installed ");
            send_score(out, sent, *score)
        }
        Reply::Refused(refusal) => send_refusal(out, sent, *refusal),
    }
}

/// How a request was served, as the last word of its reply.
fn served_word(served_as: ServedAs) -> &'static [u8]
    ensures { result.now ≡ served_word served_as }
{
    match served_as {
        ServedAs::Kept => b" kept",
        ServedAs::Moved => b" moved",
        ServedAs::Made => b" made",
        ServedAs::Loose => b" loose",
    }
}

/// Sends that a pin was set, where, and what became of it.
fn send_pinned<W: Write>(
    out: &mut Counted<W>,
    sent: Sent,
    servers: &[BackendServer],
    asked: Place,
    pinned_as: PinnedAs,
) -> Sent
    ensures { Sends out.old sent out.new result (pinned_text servers.now asked pinned_as) }
{
    let sent = send(out, sent, b"pinned");
    let sent = send_server_behind(out, sent, servers, asked);
    send(out, sent, pinned_word(pinned_as))
}

/// What became of a pin that was set, as the last word of the reply.
fn pinned_word(pinned_as: PinnedAs) -> &'static [u8]
    ensures { result.now ≡ pinned_word pinned_as }
{
    match pinned_as {
        PinnedAs::Kept => b" kept",
        PinnedAs::Moved => b" moved",
        PinnedAs::Made => b" made",
    }
}

/// What became of a check's result.
fn check_text(checked: Checked) -> &'static [u8]
    ensures { result.now ≡ check_text checked }
{
    match checked {
        Checked::Took(Flip::Stays) => b"check stays",
        Checked::Took(Flip::WentUp) => b"check up",
        Checked::Took(Flip::WentDown) => b"check down",
        Checked::Ignored => b"check ignored",
    }
}

/// Sends a sheet's version and how many pins it has.
fn send_sheet<W: Write>(out: &mut Counted<W>, sent: Sent, sheet: &Sheet) -> Sent
    ensures { Sends out.old sent out.new result (sheet_text sheet.now) }
{
    let sent = send_labelled(out, sent, b"sheet version ", sheet.version());
    send_labelled(out, sent, b" pins ", pins_in(sheet))
}

/// How many pins the sheet has. One walk over its groups.
fn pins_in(sheet: &Sheet) -> u64
    ensures { result ≡ sum_by (λ g. g.count) sheet.now.groups }
{
    sheet
        .groups()
        .iter()
        .map(|group| u64::from(group.count))
        .sum()
}

/// Sends a refusal's number and name, and the fault of a bad plan.
fn send_refusal<W: Write>(out: &mut Counted<W>, sent: Sent, refusal: Refusal) -> Sent
    ensures { Sends out.old sent out.new result (refusal_text refusal) }
{
    match refusal {
        Refusal::NoSuchServer => send(out, sent, b"10 NoSuchServer"),
        Refusal::OutOfRange => send(out, sent, b"11 OutOfRange"),
        Refusal::NotChecked => send(out, sent, b"12 NotChecked"),
        Refusal::Full => send(out, sent, b"30 Full"),
        Refusal::NotServing => send(out, sent, b"31 NotServing"),
        Refusal::NotOpen => send(out, sent, b"32 NotOpen"),
        Refusal::TableFull => send(out, sent, b"60 TableFull"),
        Refusal::Stale => send(out, sent, b"70 Stale"),
        Refusal::Bad(fault) => {
            let sent = send(out, sent, b"71 Bad ");
            send(out, sent, fault.text().as_bytes())
        }
        Refusal::NoServer => send(out, sent, b"80 NoServer"),
    }
}

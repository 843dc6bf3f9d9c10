//! Which kinds of ends came, and what was met on the way to them.

use crate::head_model::{Kind, kind_of, waits};
use crate::owed::Owed;
use crate::round::Round;
use crate::serving::Served;
use http_relay_serve::{Cause, DropCause, Outcome};
use lb_desk_model::{Entry, Event, Reply};
use std::alloc::{AllocError, Global};

/// The kinds of ends, by their numbers. Out of memory isn't among them: nothing makes memory short here.
const ENDS: &[&str] = &[
    "relayed",
    "head too large",
    "bad head",
    "two lengths",
    "head cut short",
    "body cut short",
    "bad chunk",
    "head timed out",
    "request refused",
    "no such server",
    "unknown server",
    "connection refused",
    "head not taken",
    "body not taken",
    "no response",
    "response broken",
    "no backend",
    "no server",
    "not serving",
    "queue over",
    "not dialled",
    "response timed out",
    "head broken",
    "leave to go on not taken",
    "body not read",
    "response cut short",
    "response not taken",
    "answer not taken",
];

/// What may be met on the way.
const SIGHTS: &[&str] = &[
    "relayed with a length",
    "relayed in chunks",
    "relayed behind leave to go on",
    "relayed behind a wait for a connection",
    "relayed with a key",
    "relayed with a pattern that found no key",
    "relayed, but not what stands behind the request",
    "answered behind leave to go on",
    "an early response that nobody read",
    "a slot whose end was refused",
    "a bad chunk behind a part of the body that went out",
    "more than one way that it may end",
    "a pin that an answer taught",
    "a pin that an answer in several pieces taught",
    "a pin that was taught and refused",
];

/// How often each was met.
#[derive(Drop)]
pub(crate) struct Kinds {
    ends: [u64; 28],
    sights: [u64; 15],
}

impl Kinds {
    /// None so far.
    pub(crate) fn none() -> Self {
        Kinds {
            ends: [0; 28],
            sights: [0; 15],
        }
    }

    /// Counts one round.
    pub(crate) fn add(&mut self, round: &Round, owed: &Owed, served: &Served<'_>) {
        count(&mut self.ends, number_of(served.outcome));
        for (number, is_met) in sights(round, owed, served).iter().enumerate() {
            if *is_met {
                count(&mut self.sights, number);
            }
        }
    }

    /// How many kinds of ends came, of how many; and of what may be met.
    pub(crate) fn came(&self) -> ((usize, usize), (usize, usize)) {
        (
            (met(&self.ends), ENDS.len()),
            (met(&self.sights), SIGHTS.len()),
        )
    }

    /// A line for each, with how often it came.
    pub(crate) fn text(&self, alloc: Global) -> Result<String, AllocError> {
        let mut text = String::new(alloc);
        add_counts(alloc, &mut text, ENDS, &self.ends)?;
        add_counts(alloc, &mut text, SIGHTS, &self.sights)?;
        Ok(text)
    }
}

/// Adds a line for each of these names, with how often it came.
fn add_counts(
    alloc: Global,
    text: &mut String,
    names: &[&str],
    counts: &[u64],
) -> Result<(), AllocError> {
    for (name, count) in names.iter().zip(counts.iter()) {
        text.push_str(&format!(in alloc; "{name}: {count}\n")?)?;
    }
    Ok(())
}

/// Counts one more of this number.
fn count(counts: &mut [u64], number: usize) {
    if let Some(count) = counts.get_mut(number) {
        *count = count.saturating_add(1);
    }
}

/// How many of them came.
fn met(counts: &[u64]) -> usize {
    counts.iter().filter(|count| **count > 0).count()
}

/// The number of the kind of end.
fn number_of(outcome: Outcome) -> usize {
    match outcome {
        Outcome::Relayed => 0,
        Outcome::Answered(cause) => number_of_cause(cause),
        Outcome::Dropped(DropCause::HeadBroken) => 22,
        Outcome::Dropped(DropCause::ContinueNotTaken(_)) => 23,
        Outcome::Dropped(DropCause::BodyNotRead(_)) => 24,
        Outcome::Dropped(DropCause::ResponseCutShort(_)) => 25,
        Outcome::Dropped(DropCause::ResponseNotTaken(_)) => 26,
        Outcome::Dropped(DropCause::AnswerNotTaken(_, _)) => 27,
    }
}

fn number_of_cause(cause: Cause) -> usize {
    match cause {
        Cause::HeadTooLarge => 1,
        Cause::BadHead => 2,
        Cause::BothLengths => 3,
        Cause::HeadCutShort => 4,
        Cause::BodyCutShort => 5,
        Cause::BadChunk => 6,
        Cause::HeadTimedOut => 7,
        Cause::RequestRefused(_) => 8,
        Cause::NoSuchServer => 9,
        Cause::UnknownServer => 10,
        Cause::OpenRefused(_) => 11,
        Cause::HeadNotTaken(_) => 12,
        Cause::BodyNotTaken(_) => 13,
        Cause::NoResponse => 14,
        Cause::ResponseBroken => 15,
        Cause::NoBackend => 16,
        Cause::NoServer => 17,
        Cause::NotServing => 18,
        Cause::QueueOver => 19,
        Cause::NotDialled(_) => 20,
        Cause::ResponseTimedOut => 21,
        // Of no kind that is counted.
        Cause::HeadMemory | Cause::RequestMemory => usize::MAX,
    }
}

/// Which of `SIGHTS` were met.
fn sights(round: &Round, owed: &Owed, served: &Served<'_>) -> [bool; 15] {
    let kind = kind_of(&round.head);
    let waits = waits(&round.head, kind) && owed.is_connected;
    let is_relayed = served.outcome == Outcome::Relayed;
    let has_key = owed.entries.iter().any(
        |entry| matches!(&entry.event, Event::Serve(request) if request.key.is_some()),
    );
    let was_untaken = matches!(
        served.outcome,
        Outcome::Answered(Cause::HeadNotTaken(_)) | Outcome::Answered(Cause::BodyNotTaken(_))
    );
    let got = served.server_got().len();
    let is_bad_chunk = served.outcome == Outcome::Answered(Cause::BadChunk);
    let behind = round.input.len().saturating_sub(round.text.bytes.len());
    let head = owed.request.len().saturating_sub(behind);
    [
        is_relayed && matches!(kind, Kind::Length(_)),
        is_relayed && matches!(kind, Kind::Chunked),
        is_relayed && waits,
        is_relayed && owed.pauses > 0,
        is_relayed && has_key,
        is_relayed && !has_key,
        is_relayed && got < owed.request.len(),
        waits && matches!(served.outcome, Outcome::Answered(_)),
        was_untaken && !round.response.bytes.is_empty(),
        owed.is_connected && owed.refusals > 0,
        is_bad_chunk && got > head,
        owed.ways.len() > 1,
        was_set(owed),
        was_set(owed) && comes_in_pieces(round),
        owed.entries.iter().any(is_refused_set),
    ]
}

/// Whether a pin was to be set.
fn was_set(owed: &Owed) -> bool {
    owed.entries
        .iter()
        .any(|entry| matches!(&entry.event, Event::Set(_)))
}

fn is_refused_set(entry: &Entry) -> bool {
    matches!(
        (&entry.event, &entry.reply),
        (Event::Set(_), Reply::Refused(_))
    )
}

/// Whether the server's head comes in more than one piece.
fn comes_in_pieces(round: &Round) -> bool {
    match round.dial {
        Ok(server) => round.response.before_last_piece(server) > 0,
        Err(_) => false,
    }
}

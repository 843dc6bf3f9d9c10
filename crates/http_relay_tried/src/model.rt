//! What the profile says of a whole request, in the simplest way.
//!
//! It knows the parts that a round was made of, so it reads no bytes. It goes through the steps in their order: the head, its
//! backend, the desk, the dial, leave to go on, head and body to the server, and the response.

use crate::body::{Reach, reach_of};
use crate::byte_wire::{Peer, back, front};
use crate::head::add_words;
use crate::head_model::{Kind, add_forwarded, head_ends, key_by, key_of, kind_of, waits};
use crate::owed::{End, Owed, Way};
use crate::round::Round;
use crate::site::{COST, Place};
use http_relay_serve::{Cause, DropCause, Outcome};
use http_relay_wire::WireFault;
use lb_acl::{KeySample, Version};
use lb_desk_model::{Entry, Event, Refusal, Reply, Request, RuleList, SetPin};
use lb_desk_ports::{Asked, Pinning, Refused, ScriptedOpening};
use lb_types::{Moment, ServerSet};
use pin_set::PinId;
use std::alloc::{AllocError, Global};

const CONTINUE: &[u8] = b"HTTP/1.1 100 Continue\r\n\r\n";

/// What follows the status of the relay's own answer.
const ANSWER: &str = "\r\nContent-Length: 0\r\nConnection: close\r\n\r\n";

/// What passes between two requests for a connection, in milliseconds.
const PAUSE: u64 = 50;

/// What is owed for the round.
pub(crate) fn owed(alloc: Global, round: &Round) -> Result<Owed, AllocError> {
    let mut owed = Owed::nothing(alloc);
    add_ways(alloc, round, &mut owed)?;
    Ok(owed)
}

/// Adds each way in which the round may end, with what happens before that.
fn add_ways(alloc: Global, round: &Round, owed: &mut Owed) -> Result<(), AllocError> {
    let (end, other) = head_ends(round);
    if let Some(due) = end {
        add_way(alloc, round, owed, End::unseen(due))?;
        return match other {
            Some(due) => add_way(alloc, round, owed, End::unseen(due)),
            None => Ok(()),
        };
    }
    let place = round.site.place_for(round.head.version);
    if let Some(due) = before_dial(alloc, round, place, owed)? {
        return add_way(alloc, round, owed, End::unseen(due));
    }
    talk(alloc, round, place, owed)?;
    let server = place.target.server;
    let _ = add_event(round, owed, Event::Close(server), Reply::Closed)?;
    Ok(())
}

/// The backend and its desk are asked. It ends so, where no connection comes of that.
fn before_dial(
    alloc: Global,
    round: &Round,
    place: &Place,
    owed: &mut Owed,
) -> Result<Option<Outcome>, AllocError> {
    if !place.takes {
        return Ok(Some(Outcome::Answered(Cause::NoBackend)));
    }
    owed.backend = Some(match round.head.version {
        Version::Http10 => 0,
        Version::Http11 => 1,
    });
    owed.told.push(round.start)?;
    match ask(alloc, round, place, owed)? {
        Some(due) => Ok(Some(due)),
        None => open(round, place, owed),
    }
}

/// Adds an event to those that are owed, or says how it is refused.
fn add_event(
    round: &Round,
    owed: &mut Owed,
    event: Event,
    reply: Reply,
) -> Result<Option<Refused>, AllocError> {
    let number = (owed.entries.len() as u64).saturating_add(owed.refusals);
    if let Some((at, refused)) = round.desk.refusing {
        if at == number {
            owed.refusals = owed.refusals.saturating_add(1);
            return Ok(Some(refused));
        }
    }
    owed.entries.push(Entry { event, reply })?;
    Ok(None)
}

/// The backend is asked for the request's server. It ends so, where it is asked without success.
fn ask(
    alloc: Global,
    round: &Round,
    place: &Place,
    owed: &mut Owed,
) -> Result<Option<Outcome>, AllocError> {
    let moment = Moment::from_millis(round.start);
    let reply = match round.desk.asked {
        Asked::Served(server, how) => Reply::Served(server, how),
        Asked::NoServer => Reply::Refused(Refusal::NoServer),
        Asked::NoSuchServer => Reply::Refused(Refusal::NoSuchServer),
    };
    if let Some(refused) = add_event(round, owed, Event::Expire(moment), Reply::Expired(0))? {
        return Ok(Some(Outcome::Answered(Cause::RequestRefused(refused))));
    }
    let request = Request {
        key: key_of(alloc, round, place)?,
        rules: RuleList::new(Vec::new(alloc)),
        cost: COST,
        moment,
    };
    if let Some(refused) = add_event(round, owed, Event::Serve(request), reply)? {
        return Ok(Some(Outcome::Answered(Cause::RequestRefused(refused))));
    }
    let cause = match round.desk.asked {
        Asked::NoServer => Cause::NoServer,
        Asked::NoSuchServer => Cause::NoSuchServer,
        Asked::Served(server, _) if server != place.target.server => Cause::UnknownServer,
        Asked::Served(_, _) => return Ok(None),
    };
    Ok(Some(Outcome::Answered(cause)))
}

/// A connection is asked for at once, and every 50 ms while the server is full and the queue's time isn't over. It ends so, where none
/// is opened.
fn open(round: &Round, place: &Place, owed: &mut Owed) -> Result<Option<Outcome>, AllocError> {
    let most = match place.target.queue {
        Some(limit) => u64::from(limit).div_ceil(PAUSE).saturating_add(1),
        None => u64::MAX,
    };
    for number in 0..most {
        let opening = round.desk.openings.get(number as usize).copied();
        let opening = opening.unwrap_or(ScriptedOpening::Opened);
        let reply = match opening {
            ScriptedOpening::Opened => Reply::Opened,
            ScriptedOpening::Full => Reply::Refused(Refusal::Full),
            ScriptedOpening::NotServing => Reply::Refused(Refusal::NotServing),
        };
        let event = Event::Open(place.target.server);
        if let Some(refused) = add_event(round, owed, event, reply)? {
            return Ok(Some(Outcome::Answered(Cause::OpenRefused(refused))));
        }
        match opening {
            ScriptedOpening::Opened => return Ok(None),
            ScriptedOpening::NotServing => return Ok(Some(Outcome::Answered(Cause::NotServing))),
            ScriptedOpening::Full => {
                let waited = number.saturating_mul(PAUSE);
                owed.told.push(round.start.saturating_add(waited))?;
                if number.saturating_add(1) < most {
                    owed.pauses = owed.pauses.saturating_add(1);
                }
            }
        }
    }
    Ok(Some(Outcome::Answered(Cause::QueueOver)))
}

/// Adds how the talk with the server ends.
fn talk(alloc: Global, round: &Round, place: &Place, owed: &mut Owed) -> Result<(), AllocError> {
    owed.dial = Some((place.target.endpoint, place.target.limits));
    match round.dial {
        Ok(server) => {
            owed.is_connected = true;
            exchange(alloc, round, place, server, owed)
        }
        Err(fault) => {
            let due = Outcome::Answered(Cause::NotDialled(fault));
            add_way(alloc, round, owed, End::unseen(due))
        }
    }
}

/// Adds how the passing of request and response ends.
fn exchange(
    alloc: Global,
    round: &Round,
    place: &Place,
    server: Peer,
    owed: &mut Owed,
) -> Result<(), AllocError> {
    let kind = kind_of(&round.head);
    let invited = waits(&round.head, kind);
    add_forwarded(round, place, &mut owed.request)?;
    let head = owed.request.len();
    let behind = back(&round.input, round.text.bytes.len());
    owed.request.extend_from_slice(behind)?;
    if let Some(end) = early_end(round, server, head, invited) {
        return add_way(alloc, round, owed, end);
    }
    let (bad, passed) = body_ends(round, server, head, kind);
    if let Some(body) = bad {
        add_way(
            alloc,
            round,
            owed,
            end_of(round, server, head, invited, body),
        )?;
    }
    if let Some(body) = passed {
        if body.due.is_none() {
            learn(alloc, round, place, server, invited, owed)?;
        }
        add_way(
            alloc,
            round,
            owed,
            end_of(round, server, head, invited, body),
        )?;
    }
    Ok(())
}

/// Adds the pin that the response teaches. It comes with the piece that ends the head, if the client has taken all pieces before.
fn learn(
    alloc: Global,
    round: &Round,
    place: &Place,
    server: Peer,
    invited: bool,
    owed: &mut Owed,
) -> Result<(), AllocError> {
    let (KeySample::Cookie(_), true) = (&place.pattern.sample, place.learns) else {
        return Ok(());
    };
    let Some(key) = key_by(alloc, place.pattern.table, round.response.taught)? else {
        return Ok(());
    };
    let is_cut = server.sends < round.response.head;
    if is_cut || room_for_response(round, invited) < round.response.before_last_piece(server) {
        return Ok(());
    }
    let moment = Moment::from_millis(round.start);
    let pin = SetPin {
        name: PinId {
            key,
            want: ServerSet::empty(),
        },
        server: place.target.server,
        cost: COST,
        moment,
    };
    let reply = match round.desk.pinning {
        Pinning::Pinned(how) => Reply::Pinned(how),
        Pinning::NoTable => Reply::NoTable,
        Pinning::NoSuchServer => Reply::Refused(Refusal::NoSuchServer),
        Pinning::TableFull => Reply::Refused(Refusal::TableFull),
    };
    let _ = add_event(round, owed, Event::Set(pin), reply)?;
    Ok(())
}

/// How many bytes of the response the client takes.
fn room_for_response(round: &Round, invited: bool) -> usize {
    let before = if invited { CONTINUE.len() } else { 0 };
    round.client.takes.saturating_sub(before)
}

/// How it ends after this end of the body, to a server that took a head of so many bytes.
fn end_of(round: &Round, server: Peer, head: usize, invited: bool, body: BodyEnd) -> End {
    let ((due, copied), wanted) = match body.due {
        Some(due) => ((due, 0), round.came_behind()),
        None => (response_end(round, server, invited), body.most),
    };
    End {
        due,
        invited,
        copied,
        sent: (
            head.saturating_add(body.least),
            head.saturating_add(body.most),
        ),
        wanted,
    }
}

/// How it ends before the body, if it does: the client doesn't take leave to go on, or the server doesn't take the head.
fn early_end(round: &Round, server: Peer, head: usize, invited: bool) -> Option<End> {
    let (due, sent) = if invited && round.client.takes < CONTINUE.len() {
        let fault = round.client.refuses;
        (Outcome::Dropped(DropCause::ContinueNotTaken(fault)), 0)
    } else if server.takes < head {
        let due = Outcome::Answered(Cause::HeadNotTaken(server.refuses));
        (due, server.takes)
    } else {
        return None;
    };
    Some(End {
        invited,
        sent: (sent, sent),
        ..End::unseen(due)
    })
}

/// How a body ends: with a fault, or well.
#[derive(Clone, Copy)]
struct BodyEnd {
    due: Option<Outcome>,
    /// The least and the most bytes of it that went out.
    least: usize,
    most: usize,
}

/// How the body ends, to which a server comes that took a head of so many bytes: at a bad part, and else.
fn body_ends(
    round: &Round,
    server: Peer,
    head: usize,
    kind: Kind,
) -> (Option<BodyEnd>, Option<BodyEnd>) {
    let (passed, reach) = reach_in(round, kind);
    let room = server.takes.saturating_sub(head);
    let most = passed.min(room);
    let bad = BodyEnd {
        due: Some(Outcome::Answered(Cause::BadChunk)),
        // Of what stands before a bad part some may wait for it, so that a server may not be asked to take all.
        least: 0,
        most,
    };
    let due = match reach {
        _ if room < passed => Some(Outcome::Answered(Cause::BodyNotTaken(server.refuses))),
        Reach::Short | Reach::BadOrShort => Some(cut(round)),
        Reach::Whole | Reach::Bad => None,
    };
    let least = most;
    let end = BodyEnd { due, least, most };
    match reach {
        Reach::Whole | Reach::Short => (None, Some(end)),
        Reach::BadOrShort => (Some(bad), Some(end)),
        Reach::Bad if room < passed => (Some(bad), Some(end)),
        Reach::Bad => (Some(bad), None),
    }
}

/// How much of the body can be passed on, and what ends it.
fn reach_in(round: &Round, kind: Kind) -> (usize, Reach) {
    let came = round.came_behind();
    match kind {
        Kind::Empty => (0, Reach::Whole),
        Kind::Length(length) if came as u64 >= length => (length as usize, Reach::Whole),
        Kind::Length(_) => (came, Reach::Short),
        Kind::Chunked => reach_of(&round.parts, came),
    }
}

/// How it ends where the client is cut off within its body.
fn cut(round: &Round) -> Outcome {
    match round.client.then {
        None => Outcome::Answered(Cause::BodyCutShort),
        Some(fault) => Outcome::Dropped(DropCause::BodyNotRead(fault)),
    }
}

/// How the response ends, and how many bytes of it the client is sent.
fn response_end(round: &Round, server: Peer, invited: bool) -> (Outcome, usize) {
    let sent = server.sends.min(round.response.bytes.len());
    let due = if room_for_response(round, invited) < sent {
        Outcome::Dropped(DropCause::ResponseNotTaken(round.client.refuses))
    } else {
        match server.then {
            Some(fault) if sent > 0 => Outcome::Dropped(DropCause::ResponseCutShort(fault)),
            Some(WireFault::Timeout) => Outcome::Answered(Cause::ResponseTimedOut),
            Some(WireFault::Broken) => Outcome::Answered(Cause::ResponseBroken),
            None if sent > 0 => Outcome::Relayed,
            None => Outcome::Answered(Cause::NoResponse),
        }
    };
    (due, sent)
}

/// Adds the way that leads through this end.
fn add_way(alloc: Global, round: &Round, owed: &mut Owed, end: End) -> Result<(), AllocError> {
    let mut got = Vec::new(alloc);
    add_got(round, end, &mut got)?;
    let takes = round.client.takes;
    let outcome = match end.due {
        Outcome::Answered(cause) if takes < got.len() => {
            Outcome::Dropped(DropCause::AnswerNotTaken(cause, round.client.refuses))
        }
        due => due,
    };
    got.truncate(takes);
    owed.ways.push(Way {
        outcome,
        got,
        sent: end.sent,
        given: most_given(round, end.wanted),
    })?;
    Ok(())
}

/// Adds what the client would get, with the relay's own answer where that is due.
fn add_got(round: &Round, end: End, got: &mut Vec<u8>) -> Result<(), AllocError> {
    if end.invited {
        got.extend_from_slice(CONTINUE)?;
    }
    got.extend_from_slice(front(&round.response.bytes, end.copied))?;
    match end.due {
        Outcome::Answered(cause) => add_words(got, &["HTTP/1.1 ", status(cause), ANSWER]),
        _ => Ok(()),
    }
}

/// How many bytes the client gives at most where so many are wanted after its head: none after these, except what comes with the
/// head's last.
fn most_given(round: &Round, wanted: usize) -> usize {
    let head = round.text.bytes.len();
    let (one, other) = round.client.pieces;
    let piece = one.max(other).max(1);
    let with_head = head.saturating_sub(1).saturating_add(piece);
    with_head.max(head.saturating_add(wanted))
}

/// Status and phrase of the relay's own answer.
fn status(cause: Cause) -> &'static str {
    match cause {
        Cause::HeadTooLarge
        | Cause::BadHead
        | Cause::BothLengths
        | Cause::HeadCutShort
        | Cause::BodyCutShort
        | Cause::BadChunk => "400 Bad Request",
        Cause::HeadTimedOut => "408 Request Timeout",
        Cause::HeadMemory
        | Cause::RequestMemory
        | Cause::RequestRefused(_)
        | Cause::NoSuchServer
        | Cause::UnknownServer
        | Cause::OpenRefused(_) => "500 Internal Server Error",
        Cause::HeadNotTaken(_)
        | Cause::BodyNotTaken(_)
        | Cause::NoResponse
        | Cause::ResponseBroken => "502 Bad Gateway",
        Cause::NoBackend
        | Cause::NoServer
        | Cause::NotServing
        | Cause::QueueOver
        | Cause::NotDialled(_) => "503 Service Unavailable",
        Cause::ResponseTimedOut => "504 Gateway Timeout",
    }
}

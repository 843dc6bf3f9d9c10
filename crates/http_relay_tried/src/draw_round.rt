//! Rounds that are made up.

use crate::body::Part;
use crate::byte_wire::Peer;
use crate::dice::Dice;
use crate::draw_body::{draw_bytes, draw_parts};
use crate::draw_head::{Framing, draw_framing, draw_head, stretch};
use crate::draw_response::draw_response;
use crate::head::{Head, HeadText, Word};
use crate::round::{Desk, Round};
use crate::site::{Place, Site};
use http_relay_dial::{Endpoint, Limits};
use http_relay_head::HEAD_ROOM;
use http_relay_talk::Way;
use http_relay_wire::WireFault;
use lb_acl::{KeyLen, KeySample, StickOn, TableType, Text};
use lb_desk_model::{PinnedAs, ServedAs};
use lb_desk_ports::{Asked, Pinning, Refused, ScriptedOpening};
use lb_types::ServerId;
use std::alloc::{AllocError, Global};
use std::net::Ipv4Addr;

/// The longest length that a head may give.
const LONGEST: u64 = 999_999_999_999_999_999;

/// The round of this number.
pub(crate) fn draw_round(alloc: Global, number: u64) -> Result<Round, AllocError> {
    let dice = &mut Dice::new(number);
    let sent = draw_sent(alloc, dice)?;
    let response = draw_response(alloc, dice)?;
    let (source, address) = draw_source(dice);
    let site = draw_site(alloc, dice)?;
    let size = sent.text.bytes.len();
    let sizes = Sizes {
        head: size,
        behind: sent.input.len().saturating_sub(size),
        response: response.bytes.len(),
        is_long: sent.input.len() > 2000 || response.bytes.len() > 2000,
    };
    let start = dice.roll(100_000) as u64;
    let client = draw_client(dice, sizes);
    let server = site.place_for(sent.head.version).target.server;
    Ok(Round {
        source,
        address,
        start,
        client,
        desk: draw_desk(alloc, dice, server)?,
        dial: draw_dial(dice, sizes),
        site,
        head: sent.head,
        text: sent.text,
        spoilt_at: sent.spoilt_at,
        parts: sent.parts,
        input: sent.input,
        response,
    })
}

/// What a client sends, as its fields are in a round.
#[derive(Drop)]
struct Sent {
    head: Head,
    text: HeadText,
    spoilt_at: Option<usize>,
    parts: Vec<Part>,
    input: Vec<u8>,
}

fn draw_sent(alloc: Global, dice: &mut Dice) -> Result<Sent, AllocError> {
    let framing = draw_framing(dice);
    let length = draw_length(dice);
    let mut head = draw_head(alloc, dice, framing, length)?;
    let (text, spoilt_at) = draw_text(alloc, dice, &mut head)?;
    let parts = draw_parts(alloc, dice, framing == Framing::Chunks)?;
    let input = draw_input(alloc, dice, &text.bytes, &parts, length)?;
    Ok(Sent {
        head,
        text,
        spoilt_at,
        parts,
        input,
    })
}

/// The head as its client sends it. Now and then it has as many bytes or fields as it may have, and now and then a byte that is
/// in no head. Gives the place of that byte.
fn draw_text(
    alloc: Global,
    dice: &mut Dice,
    head: &mut Head,
) -> Result<(HeadText, Option<usize>), AllocError> {
    if dice.is_one_in(60) {
        stretch(alloc, dice, head, HEAD_ROOM)?;
        return Ok((head.text(alloc)?, None));
    }
    let mut text = head.text(alloc)?;
    if !dice.is_one_in(25) {
        return Ok((text, None));
    }
    let at = dice.roll(text.bytes.len());
    if let Some(byte) = text.bytes.get_mut(at) {
        *byte = 0;
    }
    Ok((text, Some(at)))
}

/// The length that a head gives.
fn draw_length(dice: &mut Dice) -> u64 {
    match dice.roll(40) {
        0 => LONGEST,
        1 => dice.number(&[16384, 16385, 40000]) as u64,
        2..5 => 0,
        _ => dice.roll(60) as u64,
    }
}

/// What a client sends: its head, the body, and often a second request after it.
fn draw_input(
    alloc: Global,
    dice: &mut Dice,
    head: &[u8],
    parts: &[Part],
    length: u64,
) -> Result<Vec<u8>, AllocError> {
    let mut input = Vec::from_slice(alloc, head)?;
    add_body(alloc, dice, parts, length, &mut input)?;
    Ok(input)
}

/// Adds the body, and often a second request after it.
fn add_body(
    alloc: Global,
    dice: &mut Dice,
    parts: &[Part],
    length: u64,
    input: &mut Vec<u8>,
) -> Result<(), AllocError> {
    for part in parts {
        input.extend_from_slice(&part.text)?;
    }
    if parts.is_empty() {
        let count = if length == LONGEST {
            100
        } else {
            length as usize % 65536
        };
        input.extend_from_slice(&draw_bytes(alloc, dice, count)?)?;
    }
    let more = dice.word(&[
        "",
        "",
        "0\r\n\r\n",
        "GET /admin HTTP/1.1\r\nHost: x\r\n\r\n",
    ]);
    input.extend_from_slice(more.as_bytes())
}

fn draw_source(dice: &mut Dice) -> (Word, Ipv4Addr) {
    let (text, address) = match dice.roll(3) {
        0 => ("10.0.0.7", (10, 0, 0, 7)),
        1 => ("192.168.200.254", (192, 168, 200, 254)),
        _ => ("0.0.0.0", (0, 0, 0, 0)),
    };
    let word = Word {
        text,
        address: Some(address),
    };
    let (a, b, c, d) = address;
    (word, Ipv4Addr::new(a, b, c, d))
}

fn draw_site(alloc: Global, dice: &mut Dice) -> Result<Site, AllocError> {
    Ok(Site {
        first: draw_place(alloc, dice, 8000)?,
        second: draw_place(alloc, dice, 9000)?,
    })
}

/// A backend, with a port above this one.
fn draw_place(alloc: Global, dice: &mut Dice, port: u16) -> Result<Place, AllocError> {
    let number = dice.byte() % 128;
    Ok(Place {
        takes: !dice.is_one_in(20),
        target: Way {
            server: ServerId::new(number),
            endpoint: Endpoint {
                address: Ipv4Addr::new(127, 0, 0, 1),
                port: port.saturating_add(u16::from(number)),
            },
            limits: Limits {
                connect: draw_limit(dice),
                transfer: draw_limit(dice),
            },
            queue: draw_limit(dice),
        },
        forwards_address: dice.is_one_in(2),
        pattern: draw_pattern(alloc, dice)?,
        learns: !dice.is_one_in(10),
    })
}

/// Milliseconds, or no limit.
fn draw_limit(dice: &mut Dice) -> Option<u32> {
    match dice.roll(8) {
        0 => None,
        1 => Some(0),
        2 => Some(1),
        3 => Some(49),
        4 => Some(50),
        5 => Some(51),
        6 => Some(120),
        _ => Some(1000),
    }
}

fn draw_pattern(alloc: Global, dice: &mut Dice) -> Result<StickOn, AllocError> {
    let sample = match dice.roll(3) {
        0 => KeySample::Source,
        1 => KeySample::Field(Text::new(Vec::from_slice(alloc, b"x-ID")?)),
        _ => KeySample::Cookie(Text::new(Vec::from_slice(alloc, b"id")?)),
    };
    let table = match dice.roll(4) {
        0 => TableType::Ip,
        1 => TableType::Text(KeyLen::new(1)),
        2 => TableType::Text(KeyLen::new(9)),
        _ => TableType::Text(KeyLen::new(1024)),
    };
    Ok(StickOn { sample, table })
}

/// What the desk answers: mostly this server, which the configuration has for the backend that takes the head.
fn draw_desk(alloc: Global, dice: &mut Dice, server: ServerId) -> Result<Desk, AllocError> {
    let asked = draw_asked(dice, server);
    let openings = draw_openings(alloc, dice)?;
    let refused = if dice.is_one_in(2) {
        Refused::Memory
    } else {
        Refused::Worn
    };
    let refusing = if dice.is_one_in(15) {
        Some((dice.roll(8) as u64, refused))
    } else {
        None
    };
    Ok(Desk {
        asked,
        pinning: draw_pinning(dice),
        openings,
        refusing,
    })
}

fn draw_asked(dice: &mut Dice, server: ServerId) -> Asked {
    let other = ServerId::new((server.index() % 127) as u8 + 1);
    match dice.roll(60) {
        0 => Asked::NoServer,
        1 => Asked::NoSuchServer,
        2 => Asked::Served(other, ServedAs::Kept),
        3..20 => Asked::Served(server, ServedAs::Kept),
        20..30 => Asked::Served(server, ServedAs::Loose),
        30..35 => Asked::Served(server, ServedAs::Moved),
        _ => Asked::Served(server, ServedAs::Made),
    }
}

fn draw_pinning(dice: &mut Dice) -> Pinning {
    match dice.roll(6) {
        0 => Pinning::NoTable,
        1 => Pinning::NoSuchServer,
        2 => Pinning::TableFull,
        3 => Pinning::Pinned(PinnedAs::Kept),
        4 => Pinning::Pinned(PinnedAs::Moved),
        _ => Pinning::Pinned(PinnedAs::Made),
    }
}

fn draw_openings(alloc: Global, dice: &mut Dice) -> Result<Vec<ScriptedOpening>, AllocError> {
    let mut openings = Vec::new(alloc);
    if dice.is_one_in(6) {
        for _ in 0..dice.roll(5) {
            openings.push(ScriptedOpening::Full)?;
        }
        openings.push(match dice.roll(4) {
            0 => ScriptedOpening::NotServing,
            _ => ScriptedOpening::Opened,
        })?;
    }
    Ok(openings)
}

/// The most bytes of a piece. Where there is much to move, pieces are large, so that a round stays short.
fn draw_piece(dice: &mut Dice, is_long: bool) -> usize {
    if is_long {
        dice.number(&[700, 5000, 16384, 100_000])
    } else {
        dice.number(&[1, 1, 2, 7, 40, 300, 100_000, 100_000, 100_000])
    }
}

/// How many bytes a client and a server would send: the one in its head and after it, the other in its response.
#[derive(Clone, Copy)]
struct Sizes {
    head: usize,
    behind: usize,
    response: usize,
    is_long: bool,
}

fn draw_client(dice: &mut Dice, sizes: Sizes) -> Peer {
    let input = sizes.head.saturating_add(sizes.behind);
    let sends = match dice.roll(9) {
        0 => dice.roll(input.saturating_add(1)),
        1 | 2 => sizes
            .head
            .saturating_add(dice.roll(sizes.behind.saturating_add(1))),
        _ => input,
    };
    let then = if dice.is_one_in(3) {
        None
    } else {
        Some(dice.fault())
    };
    let takes = match dice.roll(14) {
        0 => dice.roll(30),
        1 => dice.roll(sizes.response.saturating_add(120)),
        _ => usize::MAX,
    };
    draw_peer(dice, sends, then, takes, sizes.is_long)
}

fn draw_dial(dice: &mut Dice, sizes: Sizes) -> Result<Peer, WireFault> {
    if dice.is_one_in(25) {
        return Err(dice.fault());
    }
    let sends = match dice.roll(12) {
        0 => 0,
        1 => dice.roll(sizes.response.saturating_add(1)),
        _ => sizes.response,
    };
    let then = if dice.is_one_in(if sends == 0 { 2 } else { 6 }) {
        Some(dice.fault())
    } else {
        None
    };
    let takes = match dice.roll(14) {
        0 => dice.roll(sizes.head),
        // What a server gets is mostly some bytes longer than what the client sends.
        1 | 2 => sizes
            .head
            .saturating_add(30)
            .saturating_add(dice.roll(sizes.behind.saturating_add(30))),
        _ => usize::MAX,
    };
    Ok(draw_peer(dice, sends, then, takes, sizes.is_long))
}

/// A peer that sends and takes so many bytes.
fn draw_peer(
    dice: &mut Dice,
    sends: usize,
    then: Option<WireFault>,
    takes: usize,
    is_long: bool,
) -> Peer {
    Peer {
        sends,
        then,
        takes,
        refuses: dice.fault(),
        pieces: (draw_piece(dice, is_long), draw_piece(dice, is_long)),
        most_written: draw_piece(dice, is_long),
    }
}

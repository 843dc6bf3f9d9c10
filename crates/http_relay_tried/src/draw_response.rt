//! What a server sends, of which each field says what it teaches.

use crate::byte_wire::Peer;
use crate::dice::Dice;
use crate::draw_body::draw_bytes;
use crate::head::Word;
use http_relay_head::HEAD_ROOM;
use std::alloc::{AllocError, Global};

/// What a server sends.
#[derive(Drop)]
pub(crate) struct Response {
    pub(crate) bytes: Vec<u8>,
    /// How many bytes there are up to the end of its head.
    pub(crate) head: usize,
    /// What its head says last of the cookie `id`, if it teaches that.
    pub(crate) taught: Option<Word>,
}

/// What a field says of the cookie `id`.
#[derive(Clone, Copy)]
enum Says {
    Nothing,
    /// It has this value.
    Value(Word),
    /// It has no value any more.
    Gone,
}

const SHORT: Word = Word {
    text: "a1",
    address: None,
};

const LONG: Word = Word {
    text: "abcdefghijklmnop",
    address: None,
};

const ADDRESS: Word = Word {
    text: "10.0.0.7",
    address: Some((10, 0, 0, 7)),
};

const FIELDS: &[(&str, Says)] = &[
    ("Server: s\r\n", Says::Nothing),
    ("Set-Cookie: other=b2\r\n", Says::Nothing),
    ("Set-Cookie: ID=b3; Path=/\r\n", Says::Nothing),
    ("Cookie: id=b4\r\n", Says::Nothing),
    ("Set-Cookie: id=a1; Path=/\r\n", Says::Value(SHORT)),
    ("set-cookie:id=a1;Max-Age=60\r\n", Says::Value(SHORT)),
    (
        "SET-COOKIE: \tid = abcdefghijklmnop ; HttpOnly\r\n",
        Says::Value(LONG),
    ),
    ("Set-Cookie: id=10.0.0.7\r\n", Says::Value(ADDRESS)),
    ("Set-Cookie: id=; Path=/\r\n", Says::Gone),
    ("Set-Cookie: id=a1; Max-Age=0\r\n", Says::Gone),
];

/// A response: mostly an answer with a whole head.
pub(crate) fn draw_response(alloc: Global, dice: &mut Dice) -> Result<Response, AllocError> {
    let start = dice.word(&[
        "HTTP/1.1 200 OK\r\n",
        "HTTP/1.1 200 OK\r\n",
        "HTTP/1.1 100 Continue\r\n\r\nHTTP/1.0 204 No\r\n",
        "no response",
        "",
    ]);
    let mut response = Response {
        bytes: Vec::from_slice(alloc, start.as_bytes())?,
        head: 0,
        taught: None,
    };
    if start.ends_with("\n") {
        add_fields(dice, &mut response)?;
        if dice.is_one_in(12) {
            response.taught = None;
            return Ok(response);
        }
        response.bytes.extend_from_slice(b"\r\n")?;
        response.head = response.bytes.len();
    }
    let count = if dice.is_one_in(300) {
        dice.number(&[65536, 65537, 70000])
    } else {
        dice.roll(50)
    };
    response
        .bytes
        .extend_from_slice(&draw_bytes(alloc, dice, count)?)?;
    Ok(response)
}

/// Adds up to five fields.
fn add_fields(dice: &mut Dice, response: &mut Response) -> Result<(), AllocError> {
    for _ in 0..dice.roll(6) {
        let Some((text, says)) = FIELDS.get(dice.roll(FIELDS.len())) else {
            return Ok(());
        };
        response.bytes.extend_from_slice(text.as_bytes())?;
        match says {
            Says::Nothing => {}
            Says::Value(word) => response.taught = Some(*word),
            Says::Gone => response.taught = None,
        }
    }
    Ok(())
}

impl Response {
    /// How many bytes come from this server in pieces before that with the last byte of the head.
    pub(crate) fn before_last_piece(&self, server: Peer) -> usize {
        let (second, first) = server.pieces;
        let mut come: usize = 0;
        for number in 0..self.head {
            let most = if number % 2 == 0 { first } else { second };
            let after = come.saturating_add(most.clamp(1, HEAD_ROOM));
            if after >= self.head {
                return come;
            }
            come = after;
        }
        come
    }
}

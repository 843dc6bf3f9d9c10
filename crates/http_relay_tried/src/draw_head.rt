//! Heads that are made up.

use crate::dice::Dice;
use crate::head::{Head, Line, MOST_FIELDS, Name, Says, Word, add_words};
use lb_acl::Version;
use std::alloc::{AllocError, Global};

/// How the end of a body is found.
#[derive(Clone, Copy, PartialEq, Eq)]
pub(crate) enum Framing {
    Nothing,
    Length,
    EqualLengths,
    Chunks,
    LengthAndChunks,
    OtherLengths,
    NoLength,
    OtherCoding,
    TwoCodings,
}

/// One of these, mostly one that is good.
pub(crate) fn draw_framing(dice: &mut Dice) -> Framing {
    match dice.roll(100) {
        0..20 => Framing::Nothing,
        20..44 => Framing::Length,
        44..50 => Framing::EqualLengths,
        50..92 => Framing::Chunks,
        92 | 93 => Framing::LengthAndChunks,
        94 | 95 => Framing::OtherLengths,
        96 => Framing::NoLength,
        97 => Framing::OtherCoding,
        _ => Framing::TwoCodings,
    }
}

/// A head with this framing, and with this length where it gives one.
pub(crate) fn draw_head(
    alloc: Global,
    dice: &mut Dice,
    framing: Framing,
    length: u64,
) -> Result<Head, AllocError> {
    let mut lines = Vec::new(alloc);
    for _ in 0..dice.roll(6) {
        lines.push(draw_line(alloc, dice)?)?;
    }
    let framing = framing_lines(alloc, dice, framing, length)?;
    for line in framing {
        let at = dice.roll(lines.len().saturating_add(1));
        lines.insert(at.min(lines.len()), line)?;
    }
    let methods = [
        "GET", "POST", "PUT", "DELETE", "connect", "M-SEARCH", "OPTIONS", "HEAD",
    ];
    let method = if dice.is_one_in(60) {
        "CONNECT"
    } else {
        dice.word(&methods)
    };
    Ok(Head {
        empty_lines: dice.word(&["", "", "", "", "\r\n", "\n\r\n"]),
        method,
        target: dice.word(&["/", "/a/b?c=d", "*", "http://h/x", "/%00;x", "h:443"]),
        version: if dice.is_one_in(8) {
            Version::Http10
        } else {
            Version::Http11
        },
        line_end: dice.word(&["\r\n", "\r\n", "\n"]),
        lines,
    })
}

/// The lines that give the end of the body.
fn framing_lines(
    alloc: Global,
    dice: &mut Dice,
    framing: Framing,
    length: u64,
) -> Result<Vec<Line>, AllocError> {
    let (lengths, codings) = match framing {
        Framing::Length => (1, 0),
        Framing::EqualLengths | Framing::OtherLengths => (2, 0),
        Framing::LengthAndChunks => (1, 1),
        Framing::Chunks => (0, 1),
        Framing::TwoCodings => (0, 2),
        Framing::Nothing | Framing::NoLength | Framing::OtherCoding => (0, 0),
    };
    let mut lines = Vec::new(alloc);
    for number in 0..lengths {
        let is_other = framing == Framing::OtherLengths && number > 0;
        let told = if is_other { length ^ 1 } else { length };
        lines.push(length_line(alloc, dice, told)?)?;
    }
    add_codings(alloc, dice, framing, codings, &mut lines)?;
    Ok(lines)
}

/// Adds so many lines that give the coding, and the line that gives a length or a coding badly.
fn add_codings(
    alloc: Global,
    dice: &mut Dice,
    framing: Framing,
    codings: usize,
    lines: &mut Vec<Line>,
) -> Result<(), AllocError> {
    for _ in 0..codings {
        lines.push(coding_line(alloc, dice)?)?;
    }
    match framing {
        Framing::NoLength => lines.push(no_length_line(alloc, dice)?)?,
        Framing::OtherCoding => lines.push(other_coding_line(alloc, dice)?)?,
        _ => {}
    }
    Ok(())
}

/// A line whose length is none.
fn no_length_line(alloc: Global, dice: &mut Dice) -> Result<Line, AllocError> {
    let value = dice.word(&["", "+3", "3, 3", "0x3", "-1", "0000000000000000003"]);
    let says = Says::Length(None);
    Ok(line(dice, Name::ContentLength, copied(alloc, value)?, says))
}

/// A line whose coding isn't the one.
fn other_coding_line(alloc: Global, dice: &mut Dice) -> Result<Line, AllocError> {
    let value = dice.word(&[
        "gzip",
        "gzip, chunked",
        "chunked;a=1",
        "",
        "chunked, chunked",
    ]);
    let says = Says::Coding(false);
    Ok(line(dice, Name::TransferEncoding, copied(alloc, value)?, says))
}

/// A line that gives this length, with zeros before it.
fn length_line(alloc: Global, dice: &mut Dice, length: u64) -> Result<Line, AllocError> {
    let zeros = dice.word(&["", "", "0", "00"]);
    // A length of 18 digits has no room for a zero more.
    let zeros = if length < 1_000_000 { zeros } else { "" };
    let value = format!(in alloc; "{zeros}{length}")?.into_bytes();
    let says = Says::Length(Some(length));
    Ok(line(dice, Name::ContentLength, value, says))
}

fn coding_line(alloc: Global, dice: &mut Dice) -> Result<Line, AllocError> {
    let value = dice.word(&["chunked", "Chunked", "CHUNKED"]);
    let says = Says::Coding(true);
    Ok(line(dice, Name::TransferEncoding, copied(alloc, value)?, says))
}

/// A line that says nothing of the body's end.
fn draw_line(alloc: Global, dice: &mut Dice) -> Result<Line, AllocError> {
    let name = match dice.roll(12) {
        0 => return options_line(alloc, dice),
        1 => return expect_line(alloc, dice),
        2 | 3 => return id_line(alloc, dice),
        4 => return cookie_line(alloc, dice),
        5 => Name::Host,
        6 => Name::KeepAlive,
        7 => Name::ForwardedFor,
        _ => Name::Trace,
    };
    plain_line(alloc, dice, name)
}

/// A `Connection` that names up to three fields, of which few give the host or frame the body.
fn options_line(alloc: Global, dice: &mut Dice) -> Result<Line, AllocError> {
    let mut value = Vec::from_slice(alloc, b"close")?;
    let mut options = Vec::new(alloc);
    for _ in 0..dice.roll(4) {
        let name = draw_option(dice);
        let comma = dice.word(&[",", ", ", " ,\t", ",,"]);
        add_words(&mut value, &[comma, spelled(dice, name)])?;
        options.push(name)?;
    }
    Ok(line(dice, Name::Connection, value, Says::Options(options)))
}

fn draw_option(dice: &mut Dice) -> Name {
    match dice.roll(60) {
        0 => Name::Host,
        1 => Name::ContentLength,
        2 => Name::TransferEncoding,
        3..10 => Name::ForwardedFor,
        10..20 => Name::Id,
        20..25 => Name::Cookie,
        25..28 => Name::Connection,
        28..31 => Name::Expect,
        31..45 => Name::KeepAlive,
        _ => Name::Trace,
    }
}

fn expect_line(alloc: Global, dice: &mut Dice) -> Result<Line, AllocError> {
    let (value, says) = match dice.roll(8) {
        0 => ("100-continue, x", Says::Nothing),
        1 => ("", Says::Nothing),
        2 => ("100-Continue", Says::Waits),
        3 => ("100-CONTINUE", Says::Waits),
        _ => ("100-continue", Says::Waits),
    };
    Ok(line(dice, Name::Expect, copied(alloc, value)?, says))
}

/// A field of keys, of which the last one counts. Blanks stand round commas alone, never at the value's ends.
fn id_line(alloc: Global, dice: &mut Dice) -> Result<Line, AllocError> {
    let mut value = Vec::new(alloc);
    let last = draw_key(dice);
    for _ in 0..dice.roll(3) {
        let word = draw_key(dice);
        let comma = dice.word(&[",", ", ", "\t,"]);
        let is_inside = !word.text.is_empty() && !last.text.is_empty();
        add_words(
            &mut value,
            &[word.text, if is_inside { comma } else { "," }],
        )?;
    }
    value.extend_from_slice(last.text.as_bytes())?;
    Ok(line(dice, Name::Id, value, Says::Key(last)))
}

/// Cookies, of which the last one of the name `id` counts.
fn cookie_line(alloc: Global, dice: &mut Dice) -> Result<Line, AllocError> {
    let mut value = Vec::from_slice(alloc, b"a=1")?;
    let mut says = Says::Nothing;
    for _ in 0..dice.roll(4) {
        let word = draw_key(dice);
        let name = dice.word(&["id", "id", "ID", "xid", "i"]);
        let semicolon = dice.word(&[";", "; ", " ;\t"]);
        add_words(&mut value, &[semicolon, name, "=", word.text])?;
        if name == "id" {
            says = Says::Key(word);
        }
    }
    Ok(line(dice, Name::Cookie, value, says))
}

fn plain_line(alloc: Global, dice: &mut Dice, name: Name) -> Result<Line, AllocError> {
    let value = match dice.roll(7) {
        0 => b"".as_slice(),
        1 => b"a b",
        2 => b"x, y;z=\"1\"",
        3 => b"\xff\xc3\x80",
        4 => b"10.9.8.7",
        5 => b"a\tb : c",
        _ => b"1",
    };
    Ok(line(dice, name, Vec::from_slice(alloc, value)?, Says::Nothing))
}

/// A line with a long value or lines with short ones. They give the head about as many bytes or fields as it may have, a few less or
/// a few more.
pub(crate) fn stretch(
    alloc: Global,
    dice: &mut Dice,
    head: &mut Head,
    room: usize,
) -> Result<(), AllocError> {
    if !dice.is_one_in(2) {
        return add_long_line(alloc, dice, head, room);
    }
    let wanted = MOST_FIELDS
        .saturating_add(dice.number(&[0, 0, 1, 2]))
        .saturating_sub(1);
    for _ in head.lines.len()..wanted {
        head.lines.push(plain_line(alloc, dice, Name::Trace)?)?;
    }
    Ok(())
}

/// Adds a line by whose value the head has about so many bytes.
fn add_long_line(
    alloc: Global,
    dice: &mut Dice,
    head: &mut Head,
    room: usize,
) -> Result<(), AllocError> {
    let mut long = plain_line(alloc, dice, Name::Trace)?;
    long.value = Vec::new(alloc);
    head.lines.push(long)?;
    let size = head.text(alloc)?.bytes.len();
    let wanted = room
        .saturating_add(dice.number(&[0, 0, 1, 2, 1000]))
        .saturating_sub(1);
    if let Some(long) = head.lines.last_mut() {
        for _ in size..wanted {
            long.value.push(b'v')?;
        }
    }
    Ok(())
}

/// One of the keys that requests send.
fn draw_key(dice: &mut Dice) -> Word {
    match dice.roll(7) {
        0 => Word {
            text: "10.1.2.3",
            address: Some((10, 1, 2, 3)),
        },
        1 => Word {
            text: "192.168.100.200",
            address: Some((192, 168, 100, 200)),
        },
        _ => Word {
            text: dice.word(&["k1", "k2", "key-of-twenty-bytes!", "", "300.1.2.3"]),
            address: None,
        },
    }
}

/// A line of these parts.
fn line(dice: &mut Dice, name: Name, value: Vec<u8>, says: Says) -> Line {
    Line {
        name,
        spelled: spelled(dice, name),
        before: dice.word(&[" ", " ", "", "\t", "  "]),
        value,
        behind: dice.word(&["\r\n", "\r\n", "\r\n", " \t\r\n", "\n"]),
        says,
    }
}

fn spelled(dice: &mut Dice, name: Name) -> &'static str {
    dice.word(&name.spellings())
}

fn copied(alloc: Global, text: &str) -> Result<Vec<u8>, AllocError> {
    Vec::from_slice(alloc, text.as_bytes())
}

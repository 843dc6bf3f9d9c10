//! Chunked bodies that are made up.

use crate::body::{Bad, Part, PartKind};
use crate::dice::Dice;
use std::alloc::{AllocError, Global};

/// The most bytes of a size line.
const MOST_SIZE_BYTES: usize = 256;

/// The most bytes of a trailer.
const MOST_TRAILER_BYTES: usize = 8192;

/// The most fields of a trailer.
const MOST_TRAILER_FIELDS: usize = 100;

/// The parts of a chunked body, of which the last may be bad, and none of a body that isn't chunked.
pub(crate) fn draw_parts(
    alloc: Global,
    dice: &mut Dice,
    is_chunked: bool,
) -> Result<Vec<Part>, AllocError> {
    let mut parts = Vec::new(alloc);
    if is_chunked {
        add_parts(alloc, dice, &mut parts)?;
    }
    Ok(parts)
}

fn add_parts(alloc: Global, dice: &mut Dice, parts: &mut Vec<Part>) -> Result<(), AllocError> {
    for _ in 0..dice.roll(4) {
        add_chunk(alloc, dice, parts)?;
    }
    parts.push(size_line(alloc, dice, 0)?)?;
    parts.push(good(PartKind::Trailer, trailer(alloc, dice)?))?;
    if dice.is_one_in(3) {
        spoil(alloc, dice, parts)?;
    }
    Ok(())
}

/// Adds a chunk of some bytes.
fn add_chunk(alloc: Global, dice: &mut Dice, parts: &mut Vec<Part>) -> Result<(), AllocError> {
    let size = if dice.is_one_in(60) {
        dice.number(&[16384, 16385, 20000])
    } else {
        dice.roll(20).saturating_add(1)
    };
    parts.push(size_line(alloc, dice, size)?)?;
    parts.push(good(PartKind::Content, draw_bytes(alloc, dice, size)?))?;
    parts.push(good(PartKind::ContentEnd, Vec::from_slice(alloc, b"\r\n")?))?;
    Ok(())
}

/// Bytes of which many are those that lines are made of.
pub(crate) fn draw_bytes(
    alloc: Global,
    dice: &mut Dice,
    count: usize,
) -> Result<Vec<u8>, AllocError> {
    let mut bytes = Vec::new(alloc);
    for _ in 0..count {
        let byte = match dice.roll(8) {
            0 => b'\r',
            1 => b'\n',
            2 => b'0',
            3 => b':',
            _ => dice.byte(),
        };
        bytes.push(byte)?;
    }
    Ok(bytes)
}

fn good(kind: PartKind, text: Vec<u8>) -> Part {
    Part {
        kind,
        text,
        bad: None,
    }
}

/// A size line of at most as many bytes as it may have.
fn size_line(alloc: Global, dice: &mut Dice, size: usize) -> Result<Part, AllocError> {
    let zeros = dice.word(&["", "", "", "0", "0000000"]);
    let digits = if dice.is_one_in(2) {
        format!(in alloc; "{zeros}{size:x}")?
    } else {
        format!(in alloc; "{zeros}{size:X}")?
    };
    let mut text = digits.into_bytes();
    end_size_line(dice, &mut text)?;
    Ok(good(PartKind::Size, text))
}

/// Adds to a size what comes after it.
fn end_size_line(dice: &mut Dice, text: &mut Vec<u8>) -> Result<(), AllocError> {
    let behind = dice.word(&["", "", "", " ", ";a=\"1\"", "\t ;\x00"]);
    text.extend_from_slice(behind.as_bytes())?;
    if dice.is_one_in(30) {
        text.extend_from_slice(b";")?;
        let ends = b"\r\n";
        for _ in text.len()..MOST_SIZE_BYTES.saturating_sub(ends.len()) {
            text.push(b'e')?;
        }
    }
    text.extend_from_slice(b"\r\n")
}

/// A trailer, now and then of as many bytes or fields as it may have.
fn trailer(alloc: Global, dice: &mut Dice) -> Result<Vec<u8>, AllocError> {
    if dice.is_one_in(60) {
        return long_trailer(alloc, MOST_TRAILER_BYTES);
    }
    let fields = if dice.is_one_in(60) {
        MOST_TRAILER_FIELDS
    } else {
        dice.roll(10).saturating_sub(6)
    };
    let mut text = Vec::new(alloc);
    for _ in 0..fields {
        let field = dice.word(&["T: 1\r\n", "Sum:\n", "Date: x, y\r\n"]);
        text.extend_from_slice(field.as_bytes())?;
    }
    text.extend_from_slice(dice.word(&["\r\n", "\r\n", "\n"]).as_bytes())?;
    Ok(text)
}

/// A trailer of one field, of so many bytes.
fn long_trailer(alloc: Global, size: usize) -> Result<Vec<u8>, AllocError> {
    let mut text = Vec::from_slice(alloc, b"T: ")?;
    let ends = b"\r\n\r\n";
    for _ in text.len()..size.saturating_sub(ends.len()) {
        text.push(b't')?;
    }
    text.extend_from_slice(ends)?;
    Ok(text)
}

/// Makes one of the parts bad. What came after it is no part any more.
fn spoil(alloc: Global, dice: &mut Dice, parts: &mut Vec<Part>) -> Result<(), AllocError> {
    let at = dice.roll(parts.len());
    let kind = match parts.get(at) {
        Some(part) => part.kind,
        None => PartKind::Size,
    };
    // Data can't be bad, but what comes after it can.
    let (at, kind) = match kind {
        PartKind::Content => (at.saturating_add(1), PartKind::ContentEnd),
        PartKind::Size | PartKind::ContentEnd | PartKind::Trailer => (at, kind),
    };
    let part = match kind {
        PartKind::Size => bad_size_line(alloc, dice)?,
        PartKind::Trailer => bad_trailer(alloc, dice)?,
        PartKind::Content | PartKind::ContentEnd => {
            let (text, shown) = match dice.roll(3) {
                0 => ("\n\r\n", 1),
                1 => ("x\r\n", 1),
                _ => ("\rx\n", 2),
            };
            bad(alloc, PartKind::ContentEnd, text, shown, shown)?
        }
    };
    parts.truncate(at);
    parts.push(part)?;
    Ok(())
}

fn bad(
    alloc: Global,
    kind: PartKind,
    text: &str,
    may: usize,
    must: usize,
) -> Result<Part, AllocError> {
    Ok(Part {
        kind,
        text: Vec::from_slice(alloc, text.as_bytes())?,
        bad: Some(Bad { may, must }),
    })
}

/// What may be there instead of a size line, and with how many of its bytes it shows: with the first byte that can't stand there.
const BAD_SIZE_LINES: &[(&str, usize)] = &[
    ("g\r\n", 1),
    ("1g\r\n", 2),
    ("-1\r\n", 1),
    ("0x5\r\n", 2),
    ("\r\n", 1),
    ("5\n", 2),
    ("5\rx", 3),
    ("00000000000000005\r\n", 17),
];

/// One of these, or a line that is too long, which shows where its line feed can only come too late.
fn bad_size_line(alloc: Global, dice: &mut Dice) -> Result<Part, AllocError> {
    if let Some((text, shown)) = BAD_SIZE_LINES.get(dice.roll(9)) {
        return bad(alloc, PartKind::Size, text, *shown, *shown);
    }
    let shown = MOST_SIZE_BYTES.saturating_sub(1);
    let mut line = bad(alloc, PartKind::Size, "5;", shown, shown)?;
    for _ in 0..MOST_SIZE_BYTES {
        line.text.push(b'e')?;
    }
    Ok(line)
}

/// What may be there instead of a trailer, and with how many of its bytes it shows. It may with the first byte that can't stand
/// there, and has to at the end of its line.
const BAD_TRAILERS: &[(&str, usize, usize)] = &[
    ("Bad Name: 1\r\n\r\n", 4, 13),
    (" T: 1\r\n\r\n", 1, 7),
    ("T: 1\r\n folded\r\n\r\n", 7, 15),
    ("T: 1\0\r\n\r\n", 5, 7),
    ("T\r\n\r\n", 2, 3),
];

/// One of these, or a trailer that is too long.
fn bad_trailer(alloc: Global, dice: &mut Dice) -> Result<Part, AllocError> {
    let number = dice.roll(7);
    match BAD_TRAILERS.get(number) {
        Some((text, may, must)) => bad(alloc, PartKind::Trailer, text, *may, *must),
        None if number == 5 => too_many_bytes(alloc),
        None => too_many_fields(alloc),
    }
}

/// A trailer with one byte more than it may have.
fn too_many_bytes(alloc: Global) -> Result<Part, AllocError> {
    let most = MOST_TRAILER_BYTES;
    Ok(Part {
        kind: PartKind::Trailer,
        text: long_trailer(alloc, most.saturating_add(1))?,
        bad: Some(Bad {
            may: most.saturating_sub(1),
            must: most,
        }),
    })
}

/// A trailer with one field more than it may have. It may show from that one's first byte on.
fn too_many_fields(alloc: Global) -> Result<Part, AllocError> {
    let mut text = Vec::new(alloc);
    for _ in 0..MOST_TRAILER_FIELDS {
        text.extend_from_slice(b"T:1\r\n")?;
    }
    let may = text.len().saturating_add(1);
    text.extend_from_slice(b"T:1\r\n\r\n")?;
    let must = text.len();
    Ok(Part {
        kind: PartKind::Trailer,
        text,
        bad: Some(Bad { may, must }),
    })
}

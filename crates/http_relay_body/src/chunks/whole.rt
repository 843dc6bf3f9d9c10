ghost use Rattle.std.specs.Prelude.{◌≡◌, ◌≤◌, length, take, drop};
ghost use Rattle.http_relay_body.specs.Bodies.{IsFront, HasNothingWhole};
ghost use Rattle.http_relay_body.specs.Fronts.{FindsPart, FindsData, FindsChunk};
ghost use Rattle.http_relay_forward.specs.declared.framing.BodyKind.TheVariants.{Chunked};

use crate::chunks::part::{Part, Sight, sight_of};
use crate::front::BodyFront;
use http_relay_forward::BodyKind;

/// A chunk that stands whole at the front of a text, or the last part of a body, which is a size line of 0 with the trailer.
#[derive(Clone, Copy)]
struct WholeChunk {
    /// How many bytes it has.
    len: usize,
    /// Whether it is the last part.
    is_last: bool,
}

/// A part that stands whole at the front of a text.
#[derive(Clone, Copy)]
struct Found {
    /// How many bytes it has.
    len: usize,
    /// The size that it gives if it is a size line.
    value: u64,
}

/// The chunks that stand whole at the front of these bytes.
pub(crate) fn whole_chunks(behind: &[u8]) -> BodyFront
    ensures within { result.len ≤ length behind.now }
    ensures front { IsFront Chunked (take result.len behind.now) result.rest }
    ensures all { HasNothingWhole result.rest (drop result.len behind.now) }
{
    let mut len = 0;
    loop {
        match find_chunk(&behind[len..]) {
            None => {
                return BodyFront {
                    len,
                    rest: BodyKind::Chunked,
                };
            }
            Some(chunk) => {
                len += chunk.len;
                if chunk.is_last {
                    return BodyFront {
                        len,
                        rest: BodyKind::Empty,
                    };
                }
            }
        }
    }
}

/// Looks for a chunk, or the last part, at the front of this text.
fn find_chunk(text: &[u8]) -> Option<WholeChunk>
    ensures { FindsChunk text.now result }
{
    let line = find_part(Part::SizeLine, text)?;
    if line.value == 0 {
        let trailer = find_part(Part::Trailer, &text[line.len..])?;
        return Some(WholeChunk {
            len: line.len + trailer.len,
            is_last: true,
        });
    }
    let content = find_data(line.value, &text[line.len..])?;
    Some(WholeChunk {
        len: line.len + content,
        is_last: false,
    })
}

/// Looks for so much data, with the line end after it, and answers how many bytes both have.
fn find_data(size: u64, text: &[u8]) -> Option<usize>
    ensures { FindsData size text.now result }
{
    if size > text.len() as u64 {
        return None;
    }
    let end = find_part(Part::DataEnd, &text[size as usize..])?;
    Some(size as usize + end.len)
}

/// Looks for a part that stands whole at the front of this text.
fn find_part(part: Part, text: &[u8]) -> Option<Found>
    ensures { FindsPart part text.now result }
{
    match sight_of(part, text) {
        Sight::Whole(len, value) => Some(Found { len, value }),
        Sight::Short(_) => None,
        Sight::Bad => None,
    }
}

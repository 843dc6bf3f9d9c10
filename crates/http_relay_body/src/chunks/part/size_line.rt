ghost use Rattle.std.specs.Prelude.{◌≡◌, ◌*◌, ◌≤◌, ◌<◌, ℕ, List, ◌++◌, length};
ghost use Rattle.httparse.specs.Grammar.{HasNoChunkLine, MayBecomeChunkLine};
ghost use Rattle.http_relay_body.specs.Parts.{IsSizeText, least_behind_size};
ghost use Rattle.http_relay_body.specs.Rooms.{Sees};
ghost use Rattle.http_relay_body.specs.Trailers.{LineNeeds};
ghost use Rattle.http_relay_body.specs.declared.chunks.part.Part.TheVariants.{SizeLine};

use crate::chunks::part::Sight;
use crate::chunks::room::ROOM;
use httparse::{Status, parse_chunk_size, parse_hex_digit};

/// The most bytes that a size line may have, its line end included.
const MOST_LINE_BYTES: usize = 256;

/// The bytes of the shortest chunked body: `0` CR LF, and a trailer of one line feed.
const LEAST_BODY_BYTES: usize = 4;

/// Looks for a size line at the front of this text.
pub(crate) fn look(text: &[u8]) -> Sight
    ensures { Sees SizeLine text.now result }
{
    match parse_chunk_size(text) {
        Ok(Status::Complete((len, size))) if len <= MOST_LINE_BYTES => Sight::Whole(len, size),
        Ok(Status::Partial) => look_short(text),
        _ => Sight::Bad,
    }
}

/// Says how many bytes must come after this text, which is a front of a size line apart from its limit.
fn look_short(text: &[u8]) -> Sight
    requires none { HasNoChunkLine text.now }
    requires may { MayBecomeChunkLine text.now }
    ensures { Sees SizeLine text.now result }
{
    let of_line = needs(text);
    if text.len() + of_line <= MOST_LINE_BYTES {
        return Sight::Short(of_line + least_behind(least_size(text)));
    }
    Sight::Bad
}

/// How many bytes the shortest size line has after this text, its front.
fn needs(text: &[u8]) -> usize
    requires none { HasNoChunkLine text.now }
    requires may { MayBecomeChunkLine text.now }
    ensures some { (0 < result) × (result ≤ 3) }
    ensures needs { LineNeeds text.now result }
{
    if text.is_empty() {
        return b"0\r\n".len();
    }
    if text[text.len() - 1] == b'\r' {
        return b"\n".len();
    }
    b"\r\n".len()
}

/// How many bytes at least must come after a size line that gives this size.
fn least_behind(size: usize) -> usize
    requires { size ≤ 16 * ROOM }
    ensures { result ≡ least_behind_size size }
{
    if size == 0 {
        return 1;
    }
    size + 2 + LEAST_BODY_BYTES
}

/// A size that each line that begins so has at least. It is the size that the digits so far give, where that is less than a room's.
fn least_size(text: &[u8]) -> usize
    ensures within { result ≤ 16 * ROOM }
    ensures least { (size : ℕ) (rest : List ℕ) → IsSizeText size (text.now ++ rest) → result ≤ size }
{
    let mut size: usize = 0;
    for byte in text {
        let Some(digit) = parse_hex_digit(*byte) else {
            return size;
        };
        if size >= ROOM {
            return size;
        }
        size = size * 16 + digit as usize;
    }
    size
}

ghost use Rattle.std.specs.Prelude.{◌≡◌, ◌<◌, ◌≤◌, ◌↔◌, ◌∷◌, ℕ, List, length, take};
ghost use Rattle.http_relay_body.specs.Rooms.{Sees};
ghost use Rattle.http_relay_body.specs.Trailers.{IsRest, IsBehind, IsSection, IsShortest, Stands, Walked, fields_ended};
ghost use Rattle.http_relay_body.specs.declared.chunks.part.Part.TheVariants.{Trailer};
ghost use Rattle.http_relay_body.specs.declared.chunks.part.trailer.Place.TheVariants.{Start, Name, Value};

use crate::chunks::part::Sight;
use httparse::{is_header_name_token, is_header_value_token};

/// The most bytes that a trailer may have, its empty line included.
pub(crate) const MOST_TRAILER_BYTES: usize = 8192;

/// The most fields that a trailer may have.
const MOST_FIELDS: usize = 100;

/// How far a trailer was walked through. Each look goes on where the last one stopped, so each byte is looked at once, however few
/// come at a time.
#[derive(Clone, Copy)]
pub(crate) struct Walk {
    /// The bytes that were looked at.
    bytes: usize,
    /// The fields that end in them.
    fields: usize,
    /// Where in the trailer they end.
    place: Place,
}

impl Walk {
    /// Before a trailer's first byte.
    pub(crate) fn new() -> Self
        ensures { (text : List ℕ) → Walked result text }
    {
        Walk {
            bytes: 0,
            fields: 0,
            place: Place::Start,
        }
    }

    /// Looks for a trailer at the front of this text, through a front of which the walk has come.
    pub(crate) fn look(&mut self, text: &[u8]) -> Sight
        requires { Walked self.old text.now }
        ensures sees { Sees Trailer text.now result }
        ensures walked { Walked self.new text.now }
    {
        while self.bytes < text.len() {
            match self.place.behind(text[self.bytes]) {
                Step::On(place) => {
                    self.bytes += 1;
                    self.fields += place.fields_ended();
                    self.place = place;
                }
                Step::End => return look_whole(text, self.bytes + 1, self.fields),
                Step::Never => return Sight::Bad,
            }
        }
        look_short(text, self.place, self.fields)
    }
}

/// Sees the trailer at the front of this text, of so many bytes and fields, if these are within the limits.
fn look_whole(text: &[u8], bytes: usize, fields: usize) -> Sight
    requires within { bytes ≤ length text.now }
    requires section { IsSection fields (take bytes text.now) }
    ensures { Sees Trailer text.now result }
{
    if bytes <= MOST_TRAILER_BYTES && fields <= MOST_FIELDS {
        return Sight::Whole(bytes, 0);
    }
    Sight::Bad
}

/// Says how many bytes must come after this text, a front of a trailer apart from the limits, in which so many fields
/// end.
fn look_short(text: &[u8], place: Place, fields: usize) -> Sight
    requires few { fields ≤ length text.now }
    requires stands { Stands place fields text.now }
    ensures { Sees Trailer text.now result }
{
    let (bytes, more_fields) = place.shortest();
    if text.len() + bytes <= MOST_TRAILER_BYTES && fields + more_fields <= MOST_FIELDS {
        return Sight::Short(bytes);
    }
    Sight::Bad
}

/// Where in a trailer a text ends.
#[derive(Clone, Copy, Debug, PartialEq, Eq)]
enum Place {
    /// At the beginning of a line.
    Start,
    /// In a field's name.
    Name,
    /// After a field's colon.
    Value,
    /// In the CR LF that ends a field.
    FieldEnd,
    /// In the CR LF that ends the trailer.
    LastEnd,
}

/// What a byte of a trailer leads to.
#[derive(Clone, Copy, Debug, PartialEq, Eq)]
enum Step {
    /// To this place.
    On(Place),
    /// To the trailer's end.
    End,
    /// Nowhere: no trailer has this byte there.
    Never,
}

impl Place {
    /// What this byte leads to here.
    fn behind(self, byte: u8) -> Step
        ensures { (fields : ℕ) (rest : List ℕ) → IsRest self fields (byte ∷ rest) ↔ IsBehind result fields rest }
    {
        match self {
            Place::Start => behind_start(byte),
            Place::Name => behind_name(byte),
            Place::Value => behind_value(byte),
            Place::FieldEnd if byte == b'\n' => Step::On(Place::Start),
            Place::LastEnd if byte == b'\n' => Step::End,
            Place::FieldEnd | Place::LastEnd => Step::Never,
        }
    }

    /// How many fields end where a text comes to this place: a line begins after a field.
    fn fields_ended(self) -> usize
        ensures { (result ≡ fields_ended self) × (result ≤ 1) }
    {
        match self {
            Place::Start => 1,
            _ => 0,
        }
    }

    /// The bytes of the shortest rest of a trailer from here on, and the fields that end in it.
    fn shortest(self) -> (usize, usize)
        ensures shortest { IsShortest self result.0 result.1 }
        ensures some { 0 < result.0 }
        ensures few { (result.0 ≤ 3) × (result.1 ≤ 1) }
    {
        match self {
            Place::Start | Place::LastEnd => (b"\n".len(), 0),
            Place::Name => (b":\n\n".len(), 1),
            Place::Value | Place::FieldEnd => (b"\n\n".len(), 1),
        }
    }
}

/// What this byte leads to at the beginning of a line.
fn behind_start(byte: u8) -> Step
    ensures { (fields : ℕ) (rest : List ℕ) → IsRest Start fields (byte ∷ rest) ↔ IsBehind result fields rest }
{
    if byte == b'\r' {
        return Step::On(Place::LastEnd);
    }
    if byte == b'\n' {
        return Step::End;
    }
    if is_header_name_token(byte) {
        return Step::On(Place::Name);
    }
    Step::Never
}

/// What it leads to in a field's name.
fn behind_name(byte: u8) -> Step
    ensures { (fields : ℕ) (rest : List ℕ) → IsRest Name fields (byte ∷ rest) ↔ IsBehind result fields rest }
{
    if byte == b':' {
        return Step::On(Place::Value);
    }
    if is_header_name_token(byte) {
        return Step::On(Place::Name);
    }
    Step::Never
}

/// What it leads to after a field's colon.
fn behind_value(byte: u8) -> Step
    ensures { (fields : ℕ) (rest : List ℕ) → IsRest Value fields (byte ∷ rest) ↔ IsBehind result fields rest }
{
    if byte == b'\r' {
        return Step::On(Place::FieldEnd);
    }
    if byte == b'\n' {
        return Step::On(Place::Start);
    }
    if is_header_value_token(byte) {
        return Step::On(Place::Value);
    }
    Step::Never
}

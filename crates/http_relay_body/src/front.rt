ghost use Rattle.std.specs.Prelude.{◌≡◌, ◌≤◌, length, take, drop};
ghost use Rattle.http_relay_body.specs.Bodies.{IsFront, HasNothingWhole};
ghost use Rattle.http_relay_forward.specs.declared.framing.BodyKind.TheVariants.{Length};

use crate::chunks::whole_chunks;
use http_relay_forward::BodyKind;

/// The front of a body that came with its head.
#[derive(Clone, Copy, Debug, PartialEq, Eq)]
pub struct BodyFront {
    /// How many bytes of it there are.
    pub len: usize,
    /// What the body is after them.
    pub rest: BodyKind,
}

impl BodyFront {
    /// The front of a body of this kind in these bytes, which are the client's after the head. Of so many bytes it is those that are
    /// there, and of chunks those that are whole, the last one with its trailer. It costs a walk over the size lines and the trailer,
    /// and none over the data.
    pub fn of(kind: BodyKind, behind: &[u8]) -> Self
        ensures within { result.len ≤ length behind.now }
        ensures front { IsFront kind (take result.len behind.now) result.rest }
        ensures all { HasNothingWhole result.rest (drop result.len behind.now) }
    {
        match kind {
            BodyKind::Empty => BodyFront { len: 0, rest: kind },
            BodyKind::Length(count) => of_length(count, behind),
            BodyKind::Chunked => whole_chunks(behind),
        }
    }
}

/// The front of so many bytes.
fn of_length(count: u64, behind: &[u8]) -> BodyFront
    ensures within { result.len ≤ length behind.now }
    ensures front { IsFront (Length count) (take result.len behind.now) result.rest }
    ensures all { HasNothingWhole result.rest (drop result.len behind.now) }
{
    let here = behind.len() as u64;
    if count <= here {
        return BodyFront {
            len: count as usize,
            rest: BodyKind::Empty,
        };
    }
    BodyFront {
        len: behind.len(),
        rest: BodyKind::Length(count - here),
    }
}

ghost use Rattle.http_relay_body.specs.Rooms.{Sees};
ghost use Rattle.http_relay_body.specs.declared.chunks.part.Part.TheVariants.{DataEnd};

use crate::chunks::part::Sight;

/// Looks for the line end after a chunk's data at the front of this text. A body goes on after it: 4 bytes at least.
pub(crate) fn look(text: &[u8]) -> Sight
    ensures { Sees DataEnd text.now result }
{
    if text.is_empty() {
        return Sight::Short(6);
    }
    if text[0] != b'\r' {
        return Sight::Bad;
    }
    if text.len() == 1 {
        return Sight::Short(5);
    }
    if text[1] != b'\n' {
        return Sight::Bad;
    }
    Sight::Whole(2, 0)
}

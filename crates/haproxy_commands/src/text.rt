ghost use Rattle.std.specs.Prelude.{◌≡◌, IfOk};
ghost use Rattle.haproxy_commands.specs.Reading.{commands_in, NeverWaits};
ghost use Rattle.haproxy_commands.specs.Writing.{text_of, commands_of};
ghost use Rattle.haproxy_commands.specs.Names.{Answers, refusal_of};

use crate::bytes::{first_unnamed, is_table_name};
use crate::writing::moves_text;
use crate::{CommandsFault, Move};
use std::alloc::Global;

/// The commands that make the moves, in their order: for each a line `clear table TABLE key KEY;set table TABLE key KEY
/// data.server_id N`. In a key a backslash stands before each backslash, blank, tab, `;` and `<`.
///
/// The table's name must be made of letters, digits, `-`, `_`, `.` and `:`. A key must have a byte, and no byte 0 (NUL), 10 (LF) or
/// 13 (CR). The fault is that of the name, else that of the first such key, else that memory runs out.
///
/// Unless it was sent `prompt`, HAProxy takes one line a connection. It costs two walks over the keys, and memory for the text.
pub fn commands_text(
    alloc: Global,
    table: &[u8],
    moves: &[Move<'_>],
) -> Result<Vec<u8>, CommandsFault>
    ensures text { IfOk result (λ text. text.items ≡ text_of table.now moves.now) }

    // What HAProxy reads of it: two commands for each move, and none of them waits for more lines.
    ensures read { IfOk result (λ text. commands_in text.items ≡ commands_of table.now moves.now) }
    ensures complete { IfOk result (λ text. NeverWaits text.items) }

    // Which fault it is.
    ensures fault { Answers result (refusal_of table.now moves.now) }
{
    if !is_table_name(table) {
        return Err(CommandsFault::BadTable);
    }
    if let Some(place) = first_unnamed(moves) {
        return Err(CommandsFault::BadKey(place));
    }
    let text = moves_text(alloc, table, moves)?;
    Ok(text)
}

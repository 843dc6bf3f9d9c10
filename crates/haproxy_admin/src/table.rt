ghost use Rattle.std.specs.Prelude.{◌≡◌};
ghost use Rattle.lb_types_text.specs.Parts.{parts};
ghost use Rattle.haproxy_admin.specs.Faults.{Gives};
ghost use Rattle.haproxy_admin.specs.Lines.{said_from, with_said};
ghost use Rattle.haproxy_admin.specs.Tables.{entry_said, table_of};

use crate::entry::{Entry, read_entry};
use crate::fault::ReadError;
use lb_types_text::{Parts, cut};
use std::alloc::Global;

/// The entries of the table, in the text's order. The text is HAProxy's answer to `show table` with a table's name.
///
/// Words of an entry other than its key, `server_key`, `server_id` and `exp` are passed over, and empty lines too. The errors are out of
/// memory, and the first line that isn't of the form. It costs a few walks over the text, and memory for the keys and names.
#[tactic(auto, unfolding(crate::specs::Tables::table_of), using(crate::proofs::Lines::said_nothing))]
pub fn read_table(alloc: Global, text: &[u8]) -> Result<Vec<Entry>, ReadError>
    ensures exact { Gives (λ entries. entries.items) result (table_of text.now) }
{
    if !text.starts_with(b"# table: ") {
        return Err(ReadError::Line(1));
    }
    let Some((_, lines)) = cut(text, b'\n') else {
        return Ok(Vec::new(alloc));
    };
    read_entries(alloc, lines)
}

/// The entries of the lines from line 2 on.
fn read_entries(alloc: Global, text: &[u8]) -> Result<Vec<Entry>, ReadError>
    ensures { Gives (λ entries. entries.items) result (said_from entry_said 2 (parts 10 text.now)) }
{
    let mut entries = Vec::new(alloc);
    let mut lines = Parts::new(text, b'\n');
    let mut number = 2;
    while let Some(line) = lines.next_part() {
        add_line(alloc, number, line, &mut entries)?;
        number += 1;
    }
    Ok(entries)
}

/// Adds the entry that line `number` is, if it isn't empty.
#[tactic(auto, unfolding(crate::specs::Tables::entry_said, crate::specs::Lines::with_said))]
fn add_line(
    alloc: Global,
    number: u64,
    line: &[u8],
    entries: &mut Vec<Entry>,
) -> Result<(), ReadError>
    ensures { Gives (λ _. entries.new.items) result (with_said number (entry_said line.now) entries.old.items) }
{
    if line.is_empty() {
        return Ok(());
    }
    let Some(entry) = read_entry(alloc, line)? else {
        return Err(ReadError::Line(number));
    };
    entries.push(entry)?;
    Ok(())
}

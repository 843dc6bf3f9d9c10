ghost use Rattle.std.specs.Prelude.{◌≡◌, ℕ, List, IfErr, IfOk};
ghost use Rattle.dual_cert_plan.specs.Sheets.{SheetParts, IsSheet};
ghost use Rattle.dual_cert_text.specs.Faults.{Fails, Gives};
ghost use Rattle.sheet_format.specs.Meanings.{Means};
ghost use Rattle.sheet_format.specs.Texts.{said_by};

use crate::reading::Reading;
use dual_cert_plan::Sheet;
use dual_cert_text::ReadError;
use lb_types_text::cut;
use std::alloc::Global;

/// The sheet that a lenient text means, or its first fault.
///
/// A `#` begins a comment, lines may be empty, and any blanks separate words. `stickysheet 1` or `stickysheet 2` before
/// all else, one `version N` and `end` may be left out. `server NAME off`, `server NAME cap C` or `server NAME`, with
/// room for all pins, declares a server, before the groups that name it. `group COUNT PLACE SET` or
/// `group COUNT PLACE SET COST` says pins. Groups come in any order, names in a set too, and groups of one place, set and
/// cost are added up.
///
/// One walk over the text, and a binary search for each group. The memory is that of the groups.
pub fn format_sheet(alloc: Global, text: &[u8]) -> Result<Sheet, ReadError>
    ensures found { IfOk result (λ sheet. Means text.now sheet) }
    ensures lawful { IfOk result (λ sheet. IsSheet sheet) }
    ensures fault { IfErr result (λ error. Fails error (said_by text.now)) }
{
    let reading = read_text(alloc, text)?;
    Ok(reading.into_sheet(alloc)?)
}

/// A text means one sheet.
pub fn one_sheet_for_a_text()
    ensures { (text : List ℕ) (a b : SheetParts) → IsSheet a → IsSheet b → Means text a → Means text b → a ≡ b }
{}

/// What the text says, line by line.
fn read_text(alloc: Global, text: &[u8]) -> Result<Reading, ReadError>
    ensures { Gives (λ r. r) result (said_by text.now) }
{
    let mut reading = Reading::new(alloc);
    let mut rest = text;
    let mut number = 1;
    while let Some((line, behind)) = cut(rest, b'\n') {
        reading.add_line(number, line)?;
        rest = behind;
        number += 1;
    }
    reading.add_line(number, rest)?;
    Ok(reading)
}

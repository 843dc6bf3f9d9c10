ghost use Rattle.std.specs.Prelude.{◌≡◌, ◌≢◌, ℕ, ◌+◌, ◌^◌, ◌<◌, List, [], ◌++◌, length, IfOk};
ghost use Rattle.lb_types_text.specs.Parts.{parts};
ghost use Rattle.dual_cert_plan.specs.Plans.{PlanParts};
ghost use Rattle.dual_cert_plan.specs.Sheets.{SheetParts, IsSheet};
ghost use Rattle.dual_cert_text.specs.declared.fault.TextFault.{TextFault};
ghost use Rattle.dual_cert_text.specs.declared.fault.TextFault.TheVariants.{Truncated};
ghost use Rattle.dual_cert_text.specs.Faults.{Gives};
ghost use Rattle.dual_cert_text.specs.Spellings.{spelling};
ghost use Rattle.dual_cert_text.specs.Texts.{body_at, end_at, is_nothing, reading};
ghost use Rattle.dual_cert_sheet.specs.SheetSpellings.{sheet_spelling};
ghost use Rattle.dual_cert_sheet.specs.SheetTexts.{sheet_format, sheet_of_text};

use crate::sheet_draft::SheetDraft;
use dual_cert_plan::Sheet;
use dual_cert_text::heading::read_heading;
use dual_cert_text::words::is;
use dual_cert_text::{ReadError, TextFault};
use lb_types_text::cut;
use std::alloc::Global;

/// The sheet that the text spells, each byte of it.
///
/// A sheet has one spelling: `stickysheet 1`, `version V` (at most 2^63), a line for each server (`server NAME off` or
/// `server NAME cap C`), a line for each group (`group COUNT PLACE SET`, in the sheet's order, with `-` for no server),
/// and `end`. Where some group's cost isn't 1, it begins with `stickysheet 2` and each group's last word is its cost. Any
/// other text has a first fault.
///
/// One walk over the text. Each name of a set is looked for from the one before it on. So a canonical set costs one walk
/// over the servers, at most 128, and each place another. The memory is that of the groups, some 50 bytes each, and up to
/// three times as much while their list grows.
pub fn read_sheet(alloc: Global, text: &[u8]) -> Result<Sheet, ReadError>
    // What is read is spelled so.
    ensures found { IfOk result (λ sheet. text.now ≡ sheet_spelling sheet) }
    // What is spelled so is read, unless memory runs out.
    ensures only { (sheet : SheetParts) → IsSheet sheet → text.now ≡ sheet_spelling sheet
        → Gives (λ s. s) result (Ok sheet) }
    // Which fault it is.
    ensures exact { Gives (λ s. s) result (sheet_of_text text.now) }
{
    read_whole(alloc, text)
}

/// No text of a sheet begins another, so a text that has other lines after it ends where it ends.
pub fn one_text()
    ensures { (a b : SheetParts) (rest : List ℕ) → IsSheet a → IsSheet b
        → sheet_spelling b ≡ sheet_spelling a ++ rest → (a ≡ b) × (rest ≡ []) }
{}

/// A fault stays, whatever follows the text: only a truncated text can be gone on with.
pub fn a_fault_stays()
    ensures { (front rest : List ℕ) (fault : TextFault) → fault ≢ Truncated
        → sheet_of_text front ≡ Err fault → sheet_of_text (front ++ rest) ≡ Err fault }
{}

/// Each beginning of a sheet's text is truncated, so no other fault is found in the beginning of a text that is a sheet's.
pub fn a_beginning_is_truncated()
    ensures { (sheet : SheetParts) (front rest : List ℕ) → IsSheet sheet → rest ≢ []
        → sheet_spelling sheet ≡ front ++ rest → sheet_of_text front ≡ Err Truncated }
{}

/// No text begins with a sheet and with a plan, so neither is taken for the other.
pub fn never_a_plan()
    ensures { (sheet : SheetParts) (plan : PlanParts) (rest more : List ℕ)
        → sheet_spelling sheet ++ rest ≢ spelling plan ++ more }
{}

#[tactic(auto, unfolding(crate::specs::SheetTexts::sheet_of_text))]
fn read_whole(alloc: Global, text: &[u8]) -> Result<Sheet, ReadError>
    ensures { Gives (λ s. s) result (sheet_of_text text.now) }
{
    let draft = read_draft(alloc, text)?;
    Ok(draft.into_sheet(alloc)?)
}

/// What the text is read as, line by line.
#[tactic(auto, unfolding(dual_cert_text::specs::Texts::reading, crate::specs::SheetTexts::sheet_format))]
fn read_draft(alloc: Global, text: &[u8]) -> Result<SheetDraft, ReadError>
    ensures { Gives (λ d. d) result (reading sheet_format text.now) }
{
    let heading = read_heading(b"stickysheet", text)?;
    let draft = SheetDraft::new(alloc, heading.is_second, heading.version);
    read_body(draft, heading.rest)
}

/// The lines from the third on, after the heading.
fn read_body(mut draft: SheetDraft, text: &[u8]) -> Result<SheetDraft, ReadError>
    ensures { Gives (λ d. d) result (body_at sheet_format 3 draft (parts 10 text.now)) }
{
    let mut rest = text;
    let mut number = 3;
    while let Some((line, behind)) = cut(rest, b'\n') {
        if is(line, b"end") {
            return end(draft, number, behind);
        }
        draft.add_line(number, line)?;
        rest = behind;
        number += 1;
    }
    Err(ReadError::Fault(TextFault::Truncated))
}

/// The draft, where the text may end after line `number`, which is `end`.
#[tactic(auto, unfolding(dual_cert_text::specs::Texts::end_at, crate::specs::SheetTexts::sheet_format))]
fn end(draft: SheetDraft, number: u64, rest: &[u8]) -> Result<SheetDraft, ReadError>
    requires { number + 1 < 2 ^ 64 }
    ensures { Gives (λ d. d) result (end_at sheet_format number draft (parts 10 rest.now)) }
{
    if !draft.may_end() {
        return Err(ReadError::Fault(TextFault::NotCanonical));
    }
    if !is_nothing(rest) {
        return Err(ReadError::Fault(TextFault::BadLine(number + 1)));
    }
    Ok(draft)
}

fn is_nothing(rest: &[u8]) -> bool
    ensures { result ≡ is_nothing (parts 10 rest.now) }
{
    rest.is_empty()
}

ghost use Rattle.std.specs.Prelude.{◌≡◌, ◌++◌, ◌∷◌, [], ℕ, List, false, OnOk, IfOk, IfSome};
ghost use Rattle.std.specs.Io.KnownBytes.{Appends};
ghost use Rattle.lb_types_counted.specs.Writers.{WritesFront};
ghost use Rattle.dual_cert_text.specs.Faults.{fault_text};
ghost use Rattle.dual_cert_sheet.specs.SheetSpellings.{sheet_spelling};
ghost use Rattle.sheet_format.specs.Texts.{said_by};
ghost use Rattle.lb_cli_ends.specs.Hindered.{OnCannotWrite, OnNoAnswer};
ghost use Rattle.lb_cli_format.specs.Formatting.{Answers, means_one};

use dual_cert_plan::Sheet;
use dual_cert_sheet_write::write_sheet;
use dual_cert_text::{ReadError, TextFault};
use lb_cli_ends::{JobError, whole};
use lb_types::Counted;
use sheet_format::format_sheet;
use std::alloc::{AllocError, Global};
use std::io::{Read, Write};

/// Reads a lenient text to its end, and writes the text of the sheet that it means, or its first fault. Returns whether it means a
/// sheet.
///
/// The text, the sheet and its text are held whole: what is larger than memory fails as out of memory.
pub fn format<R: Read, W: Write>(
    alloc: Global,
    file: &mut R,
    out: &mut Counted<W>,
) -> Result<bool, JobError>
    ensures read { IfOk result (λ is_sheet. IfSome (R.remaining file.old) (λ text.
        is_sheet ≡ means_one (said_by text))) }
    ensures written { OnOk result (IfSome (R.remaining file.old) (λ text.
        (written : List ℕ) × Answers text written × Appends out.old.contents out.new.contents written)) }

    // Where it is hindered.
    ensures cut { OnCannotWrite result (IfSome (R.remaining file.old) (λ text.
        (answer : List ℕ) × Answers text answer × WritesFront out.old out.new answer)) }
    ensures silent { OnNoAnswer result (out.new ≡ out.old) }
{
    let text = whole(alloc, file)?;
    Answer::to(alloc, &text)?.write(out)
}

/// What is written for a text.
#[derive(Drop)]
struct Answer {
    is_sheet: bool,
    text: Vec<u8>,
}

impl Answer {
    #[tactic(auto, using(crate::proofs::Said::spelled, crate::proofs::Said::meant, crate::proofs::Said::faulty, crate::proofs::Said::unmeant))]
    fn to(alloc: Global, text: &[u8]) -> Result<Answer, AllocError>
        ensures written { IfOk result (λ answer. Answers text.now answer.text.items) }
        ensures read { IfOk result (λ answer. answer.is_sheet ≡ means_one (said_by text.now)) }
    {
        match format_sheet(alloc, text) {
            Ok(sheet) => Ok(Answer {
                is_sheet: true,
                text: sheet_text(alloc, &sheet)?,
            }),
            Err(ReadError::Fault(fault)) => Answer::of_fault(alloc, fault),
            Err(ReadError::Memory) => Err(AllocError),
        }
    }

    /// The answer to a text that means no sheet.
    fn of_fault(alloc: Global, fault: TextFault) -> Result<Answer, AllocError>
        ensures written { IfOk result (λ answer. answer.text.items ≡ fault_text fault ++ 10 ∷ []) }
        ensures read { IfOk result (λ answer. answer.is_sheet ≡ false) }
    {
        let mut line = fault.text(alloc)?;
        line.push('\n')?;
        Ok(Answer {
            is_sheet: false,
            text: line.into_bytes(),
        })
    }

    /// Writes the answer, and returns whether the text means a sheet.
    fn write<W: Write>(&self, out: &mut Counted<W>) -> Result<bool, JobError>
        ensures read { IfOk result (λ is_sheet. is_sheet ≡ self.now.is_sheet) }
        ensures written { OnOk result (Appends out.old.contents out.new.contents self.now.text.items) }
        ensures cut { OnCannotWrite result (WritesFront out.old out.new self.now.text.items) }
        ensures silent { OnNoAnswer result (out.new ≡ out.old) }
    {
        match out.write_all(&self.text) {
            Ok(()) => Ok(self.is_sheet),
            Err(_) => Err(JobError::CannotWrite),
        }
    }
}

/// The text of the sheet.
fn sheet_text(alloc: Global, sheet: &Sheet) -> Result<Vec<u8>, AllocError>
    ensures { IfOk result (λ text. text.items ≡ sheet_spelling sheet.now) }
{
    let mut text = Counted::new(Vec::new(alloc));
    match write_sheet(sheet, &mut text) {
        Ok(()) => Ok(text.into_inner()),
        Err(_) => Err(AllocError),
    }
}

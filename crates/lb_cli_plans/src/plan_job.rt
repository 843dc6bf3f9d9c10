ghost use Rattle.std.specs.Prelude.{◌≡◌, ◌++◌, ◌∷◌, [], ℕ, List, false, OnOk, IfOk, IfSome};
ghost use Rattle.std.specs.Io.KnownBytes.{Appends};
ghost use Rattle.lb_types_counted.specs.Writers.{WritesFront};
ghost use Rattle.dual_cert_text.specs.Faults.{fault_text};
ghost use Rattle.dual_cert_sheet.specs.SheetTexts.{sheet_of_text};
ghost use Rattle.lb_cli_ends.specs.Hindered.{OnCannotWrite, OnNoAnswer};
ghost use Rattle.lb_cli_plans.specs.Planning.{Answers, IsPlanFor, was_read};
ghost use Rattle.lb_cli_plans.specs.Tables.{AreTablesFor, TellsTables};

use dual_cert_plan::Sheet;
use dual_cert_sheet::read_sheet;
use dual_cert_text::{ReadError, TextFault};
use dual_cert_write::write_plan;
use flow_planner::plan as best_plan;
use lb_cli_ends::{JobError, whole};
use lb_cli_tables::tables_text;
use lb_types::Counted;
use std::alloc::{AllocError, Global};
use std::io::{Read, Write};

/// Reads the text of a sheet to its end, and writes the text of a best plan for it, whose prices show that it is best; or the
/// first fault of the text. Returns whether the text was a sheet's.
///
/// The sheet and the plan's text are held whole: what is larger than memory fails as out of memory.
pub fn plan<R: Read, W: Write>(
    alloc: Global,
    file: &mut R,
    out: &mut Counted<W>,
) -> Result<bool, JobError>
    ensures read { IfOk result (λ is_sheet. IfSome (R.remaining file.old) (λ text.
        is_sheet ≡ was_read (sheet_of_text text))) }
    ensures written { OnOk result (IfSome (R.remaining file.old) (λ text.
        (written : List ℕ) × Answers text written × Appends out.old.contents out.new.contents written)) }

    // Where it is hindered.
    ensures cut { OnCannotWrite result (IfSome (R.remaining file.old) (λ text.
        (answer : List ℕ) × Answers text answer × WritesFront out.old out.new answer)) }
    ensures silent { OnNoAnswer result (out.new ≡ out.old) }
{
    let text = whole(alloc, file)?;
    Answer::to(alloc, &text)?.write(out)
}

/// Reads the text of a sheet to its end, and writes a best plan for it as tables for a reader: where pins go, and then each place with
/// its pins before and after, its capacity and its price. Or it writes the first fault of the text. Returns whether the text was a
/// sheet's.
///
/// The sheet, the plan and the tables are held whole: what is larger than memory fails as out of memory.
pub fn plan_tables<R: Read, W: Write>(
    alloc: Global,
    file: &mut R,
    out: &mut Counted<W>,
) -> Result<bool, JobError>
    ensures read { IfOk result (λ is_sheet. IfSome (R.remaining file.old) (λ text.
        is_sheet ≡ was_read (sheet_of_text text))) }
    ensures written { OnOk result (IfSome (R.remaining file.old) (λ text.
        (written : List ℕ) × TellsTables text written × Appends out.old.contents out.new.contents written)) }

    // Where it is hindered.
    ensures cut { OnCannotWrite result (IfSome (R.remaining file.old) (λ text.
        (answer : List ℕ) × TellsTables text answer × WritesFront out.old out.new answer)) }
    ensures silent { OnNoAnswer result (out.new ≡ out.old) }
{
    let text = whole(alloc, file)?;
    Answer::with_tables(alloc, &text)?.write(out)
}

/// What is written for a text.
#[derive(Drop)]
struct Answer {
    is_sheet: bool,
    text: Vec<u8>,
}

impl Answer {
    fn to(alloc: Global, text: &[u8]) -> Result<Answer, AllocError>
        ensures written { IfOk result (λ answer. Answers text.now answer.text.items) }
        ensures read { IfOk result (λ answer. answer.is_sheet ≡ was_read (sheet_of_text text.now)) }
    {
        match read_sheet(alloc, text) {
            Ok(sheet) => Ok(Answer {
                is_sheet: true,
                text: plan_text(alloc, &sheet)?,
            }),
            Err(ReadError::Fault(fault)) => Answer::of_fault(alloc, fault),
            Err(ReadError::Memory) => Err(AllocError),
        }
    }

    fn with_tables(alloc: Global, text: &[u8]) -> Result<Answer, AllocError>
        ensures written { IfOk result (λ answer. TellsTables text.now answer.text.items) }
        ensures read { IfOk result (λ answer. answer.is_sheet ≡ was_read (sheet_of_text text.now)) }
    {
        match read_sheet(alloc, text) {
            Ok(sheet) => Ok(Answer {
                is_sheet: true,
                text: tables_for(alloc, &sheet)?,
            }),
            Err(ReadError::Fault(fault)) => Answer::of_fault(alloc, fault),
            Err(ReadError::Memory) => Err(AllocError),
        }
    }

    /// The answer to a text that is no sheet's.
    fn of_fault(alloc: Global, fault: TextFault) -> Result<Answer, AllocError>
        ensures written { IfOk result (λ answer. answer.text.items ≡ fault_text fault ++ 10 ∷ []) }
        ensures read { IfOk result (λ answer. answer.is_sheet ≡ false) }
    {
        let mut line = fault.text(alloc)?;
        line.push('\n')?;
        Ok(Answer {
            is_sheet: false,
            text: line.into_bytes(),
        })
    }

    /// Writes the answer, and returns whether the text was a sheet's.
    fn write<W: Write>(&self, out: &mut Counted<W>) -> Result<bool, JobError>
        ensures read { IfOk result (λ is_sheet. is_sheet ≡ self.now.is_sheet) }
        ensures written { OnOk result (Appends out.old.contents out.new.contents self.now.text.items) }
        ensures cut { OnCannotWrite result (WritesFront out.old out.new self.now.text.items) }
        ensures silent { OnNoAnswer result (out.new ≡ out.old) }
    {
        match out.write_all(&self.text) {
            Ok(()) => Ok(self.is_sheet),
            Err(_) => Err(JobError::CannotWrite),
        }
    }
}

/// The text of a best plan for the sheet.
fn plan_text(alloc: Global, sheet: &Sheet) -> Result<Vec<u8>, AllocError>
    ensures { IfOk result (λ text. IsPlanFor sheet.now text.items) }
{
    let planned = best_plan(alloc, sheet)?;
    let mut text = Counted::new(Vec::new(alloc));
    match write_plan(planned.plan(), &mut text) {
        Ok(()) => Ok(text.into_inner()),
        Err(_) => Err(AllocError),
    }
}

/// The tables of a best plan for the sheet.
fn tables_for(alloc: Global, sheet: &Sheet) -> Result<Vec<u8>, AllocError>
    ensures { IfOk result (λ text. AreTablesFor sheet.now text.items) }
{
    let best = best_plan(alloc, sheet)?;
    tables_text(alloc, best.plan())
}

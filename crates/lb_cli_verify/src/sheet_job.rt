ghost use Rattle.std.specs.Prelude.{◌≡◌, ◌++◌, ◌∷◌, [], codes, OnOk, IfOk, IfSome};
ghost use Rattle.std.specs.Io.KnownBytes.{Appends};
ghost use Rattle.std.specs.String.{string_bytes};
ghost use Rattle.lb_types_counted.specs.Writers.{WritesFront};
ghost use Rattle.dual_cert_text.specs.Faults.{fault_text};
ghost use Rattle.dual_cert_sheet.specs.SheetTexts.{sheet_of_text};
ghost use Rattle.lb_cli_verify.specs.Asking.{complaint_of, sheet_read};
ghost use Rattle.lb_cli_ends.specs.Hindered.{OnCannotWrite, OnNoAnswer};
ghost use Rattle.lb_cli_verify.specs.Verify.{finding_for, MeansBestFor, line_of};

use crate::Finding;
use crate::verify_job::tell;
use dual_cert_plan::Sheet;
use dual_cert_sheet::read_sheet;
use dual_cert_text::{ReadError, TextFault};
use lb_cli_ends::{JobError, whole};
use lb_types::Counted;
use std::alloc::{AllocError, Global};
use std::io::{Read, Write};

/// Reads the text of a sheet to its end, for plans to be judged by. Where it is no sheet's, it writes its first fault, as
/// `sheet 40 BadLine 3`.
///
/// The text is read whole: one that is larger than memory fails as out of memory.
pub fn sheet_for<R: Read, W: Write>(
    alloc: Global,
    file: &mut R,
    out: &mut Counted<W>,
) -> Result<Option<Sheet>, JobError>
    ensures read { IfOk result (λ sheet. IfSome (R.remaining file.old) (λ text.
        sheet ≡ sheet_read (sheet_of_text text))) }
    ensures written { OnOk result (IfSome (R.remaining file.old) (λ text.
        Appends out.old.contents out.new.contents (complaint_of (sheet_of_text text)))) }

    // Where it is hindered.
    ensures cut { OnCannotWrite result (IfSome (R.remaining file.old) (λ text.
        WritesFront out.old out.new (complaint_of (sheet_of_text text)))) }
    ensures silent { OnNoAnswer result (out.new ≡ out.old) }
{
    let text = whole(alloc, file)?;
    let fault = match read_sheet(alloc, &text) {
        Ok(sheet) => return Ok(Some(sheet)),
        Err(ReadError::Fault(fault)) => fault,
        Err(ReadError::Memory) => return Err(JobError::OutOfMemory),
    };
    let line = complaint(alloc, fault)?;
    match out.write_all(&line) {
        Ok(()) => Ok(None),
        Err(_) => Err(JobError::CannotWrite),
    }
}

/// Reads the text of a plan to its end, and writes one line: `best pins N unplaced U moved M` if the plan is made for the sheet, is
/// lawful, has the sheet's version, and its prices show that no plan is better; else the first fault. ` cost C` follows M if C isn't
/// M. If only the version isn't the sheet's, the line is `version 6 differs from the sheet's 7`.
///
/// The text is read whole: one that is larger than memory fails as out of memory.
pub fn verify_for<R: Read, W: Write>(
    alloc: Global,
    sheet: &Sheet,
    file: &mut R,
    out: &mut Counted<W>,
) -> Result<Finding, JobError>
    ensures finding { IfOk result (λ finding. IfSome (R.remaining file.old) (λ text.
        finding ≡ finding_for sheet.now text)) }
    ensures best { IfOk result (λ finding. IfSome (R.remaining file.old) (λ text.
        MeansBestFor sheet.now text finding)) }
    ensures written { OnOk result (IfSome (R.remaining file.old) (λ text.
        Appends out.old.contents out.new.contents (line_of (finding_for sheet.now text)))) }

    // Where it is hindered.
    ensures cut { OnCannotWrite result (IfSome (R.remaining file.old) (λ text.
        WritesFront out.old out.new (line_of (finding_for sheet.now text)))) }
    ensures silent { OnNoAnswer result (out.new ≡ out.old) }
{
    let text = whole(alloc, file)?;
    let finding = Finding::for_sheet(alloc, sheet, &text)?;
    tell(alloc, finding, out)?;
    Ok(finding)
}

/// The fault of a sheet's text, named so, with its line end.
fn complaint(alloc: Global, fault: TextFault) -> Result<Vec<u8>, AllocError>
    ensures { IfOk result (λ line. line.items ≡ codes "sheet " ++ fault_text fault ++ 10 ∷ []) }
{
    let fault = fault_line(alloc, fault)?;
    let mut line = Vec::from_slice(alloc, b"sheet ")?;
    line.extend_from_slice(fault.as_bytes())?;
    Ok(line)
}

/// The fault of a text, with its line end.
fn fault_line(alloc: Global, fault: TextFault) -> Result<String, AllocError>
    ensures { IfOk result (λ line. string_bytes line ≡ fault_text fault ++ 10 ∷ []) }
{
    let mut line = fault.text(alloc)?;
    line.push('\n')?;
    Ok(line)
}

ghost use Rattle.std.specs.Prelude.{◌≡◌, OnOk, IfOk, IfSome};
ghost use Rattle.std.specs.Io.KnownBytes.{Appends};
ghost use Rattle.lb_types_counted.specs.Writers.{WritesFront};
ghost use Rattle.lb_cli_ends.specs.Hindered.{OnCannotWrite, OnNoAnswer};
ghost use Rattle.lb_cli_verify.specs.Verify.{finding_of, MeansBest, line_of};

use crate::Finding;
use lb_cli_ends::{JobError, whole};
use lb_types::Counted;
use std::alloc::Global;
use std::io::{Read, Write};

/// Reads the text of a plan to its end, and writes one line: `best pins N unplaced U moved M` if the plan is lawful and its prices
/// show that no plan is better; else the first fault. ` cost C` follows M if C isn't M.
///
/// The text is read whole: one that is larger than memory fails as out of memory.
pub fn verify<R: Read, W: Write>(
    alloc: Global,
    file: &mut R,
    out: &mut Counted<W>,
) -> Result<Finding, JobError>
    ensures finding { IfOk result (λ finding. IfSome (R.remaining file.old) (λ text.
        finding ≡ finding_of text)) }
    ensures best { IfOk result (λ finding. IfSome (R.remaining file.old) (λ text. MeansBest text finding)) }
    ensures written { OnOk result (IfSome (R.remaining file.old) (λ text.
        Appends out.old.contents out.new.contents (line_of (finding_of text)))) }

    // Where it is hindered.
    ensures cut { OnCannotWrite result (IfSome (R.remaining file.old) (λ text.
        WritesFront out.old out.new (line_of (finding_of text)))) }
    ensures silent { OnNoAnswer result (out.new ≡ out.old) }
{
    let text = whole(alloc, file)?;
    let finding = Finding::of(alloc, &text)?;
    tell(alloc, finding, out)?;
    Ok(finding)
}

/// Writes the finding's line.
pub(crate) fn tell<W: Write>(
    alloc: Global,
    finding: Finding,
    out: &mut Counted<W>,
) -> Result<(), JobError>
    ensures written { OnOk result (Appends out.old.contents out.new.contents (line_of finding)) }
    ensures cut { OnCannotWrite result (WritesFront out.old out.new (line_of finding)) }
    ensures silent { OnNoAnswer result (out.new ≡ out.old) }
{
    let line = finding.line(alloc)?;
    match out.write_all(line.as_bytes()) {
        Ok(()) => Ok(()),
        Err(_) => Err(JobError::CannotWrite),
    }
}

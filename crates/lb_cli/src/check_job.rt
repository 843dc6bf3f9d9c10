ghost use Rattle.std.specs.Prelude.{◌≡◌, ◌++◌, codes, OnOk, IfOk, IfSome};
ghost use Rattle.std.specs.List.{flat_map};
ghost use Rattle.std.specs.Io.KnownBytes.{Appends};
ghost use Rattle.lb_types_counted.specs.Writers.{WritesFront};
ghost use Rattle.lb_config_sections.specs.References.{checked_in};
ghost use Rattle.lb_cli.specs.Checking.{warning_line, report_of, is_valid};
ghost use Rattle.lb_cli_ends.specs.Hindered.{OnCannotWrite, OnNoAnswer};

use lb_cli_ends::{JobError, whole};
use lb_cli_faults::{config_fault_line, push_line_label};
use lb_config_sections::{ConfigFault, Sections, Warning, read_checked};
use lb_types::Counted;
use std::alloc::{AllocError, Global};
use std::io::{Read, Write};

/// Reads the text of a configuration to its end. Of a valid one it writes a line `line N: WORDS ignored` for each thing that is
/// ignored, and then `configuration is valid`; else the first fault, as `line 2: 22 UnknownWord`. Returns whether it is valid.
///
/// The text is read whole: one that is larger than memory fails as out of memory.
pub fn check<R: Read, W: Write>(
    alloc: Global,
    file: &mut R,
    out: &mut Counted<W>,
) -> Result<bool, JobError>
    ensures valid { IfOk result (λ valid. IfSome (R.remaining file.old) (λ text. valid ≡ is_valid (checked_in text))) }
    ensures written { OnOk result (IfSome (R.remaining file.old) (λ text.
        Appends out.old.contents out.new.contents (report_of (checked_in text)))) }

    // Where it is hindered.
    ensures cut { OnCannotWrite result (IfSome (R.remaining file.old) (λ text.
        WritesFront out.old out.new (report_of (checked_in text)))) }
    ensures silent { OnNoAnswer result (out.new ≡ out.old) }
{
    let text = whole(alloc, file)?;
    Report::of(alloc, &text)?.write(out)
}

/// What is printed of a text, and whether it is a valid configuration.
#[derive(Drop)]
pub(crate) struct Report {
    pub(crate) is_valid: bool,
    pub(crate) text: Vec<u8>,
}

impl Report {
    /// What is printed up to the first fault.
    pub(crate) fn of(alloc: Global, text: &[u8]) -> Result<Report, AllocError>
        ensures valid { IfOk result (λ report. report.is_valid ≡ is_valid (checked_in text.now)) }
        ensures text { IfOk result (λ report. report.text.items ≡ report_of (checked_in text.now)) }
    {
        match read_checked(alloc, text) {
            Ok(sections) => Ok(Report {
                is_valid: true,
                text: valid_report(alloc, &sections)?,
            }),
            Err(ConfigFault::Fault(fault)) => Ok(Report {
                is_valid: false,
                text: config_fault_line(alloc, &fault)?,
            }),
            Err(ConfigFault::Memory) => Err(AllocError),
        }
    }

    /// Writes the report, and returns whether the configuration is valid.
    pub(crate) fn write<W: Write>(&self, out: &mut Counted<W>) -> Result<bool, JobError>
        ensures valid { IfOk result (λ valid. valid ≡ self.now.is_valid) }
        ensures written { OnOk result (Appends out.old.contents out.new.contents self.now.text.items) }
        ensures cut { OnCannotWrite result (WritesFront out.old out.new self.now.text.items) }
        ensures silent { OnNoAnswer result (out.new ≡ out.old) }
    {
        match out.write_all(&self.text) {
            Ok(()) => Ok(self.is_valid),
            Err(_) => Err(JobError::CannotWrite),
        }
    }
}

/// The warnings, and that the configuration is valid.
fn valid_report(alloc: Global, sections: &Sections) -> Result<Vec<u8>, AllocError>
    ensures { IfOk result (λ report. report.items
        ≡ flat_map warning_line sections.now.warnings ++ codes "configuration is valid\n") }
{
    let mut report = Vec::new(alloc);
    push_warnings(alloc, &mut report, sections.warnings())?;
    report.extend_from_slice(b"configuration is valid\n")?;
    Ok(report)
}

/// Appends a line for each warning to the report.
fn push_warnings(
    alloc: Global,
    report: &mut Vec<u8>,
    warnings: &[Warning],
) -> Result<(), AllocError>
    ensures { OnOk result (report.new.items ≡ report.old.items ++ flat_map warning_line warnings.now) }
{
    for warning in warnings {
        push_warning(alloc, report, warning)?;
    }
    Ok(())
}

fn push_warning(alloc: Global, report: &mut Vec<u8>, warning: &Warning) -> Result<(), AllocError>
    ensures { OnOk result (report.new.items ≡ report.old.items ++ warning_line warning.now) }
{
    push_line_label(alloc, report, warning.line)?;
    report.extend_from_slice(warning.words.as_bytes())?;
    report.extend_from_slice(b" ignored\n")?;
    Ok(())
}

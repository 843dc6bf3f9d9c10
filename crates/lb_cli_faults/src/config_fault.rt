ghost use Rattle.std.specs.Prelude.{◌≡◌, ◌++◌, OnOk, IfOk};
ghost use Rattle.lb_cli_faults.specs.Faults.{line_label, cause_name, cause_text, fault_line};

use lb_config_sections::{Cause, LocatedFault};
use std::alloc::{AllocError, Global};

/// The fault as it is printed, with its line end.
pub fn config_fault_line(alloc: Global, fault: &LocatedFault) -> Result<Vec<u8>, AllocError>
    ensures { IfOk result (λ line. line.items ≡ fault_line fault.now) }
{
    let mut line = Vec::new(alloc);
    push_line_label(alloc, &mut line, fault.line)?;
    push_cause(&mut line, &fault.cause)?;
    line.extend_from_slice(b"\n")?;
    Ok(line)
}

/// Appends `line N: ` to the text.
pub fn push_line_label(alloc: Global, text: &mut Vec<u8>, line: u32) -> Result<(), AllocError>
    ensures { OnOk result (text.new.items ≡ text.old.items ++ line_label line) }
{
    text.extend_from_slice(b"line ")?;
    text.extend_from_slice(line.to_string(alloc)?.as_bytes())?;
    text.extend_from_slice(b": ")?;
    Ok(())
}

/// Appends the fault's number and name to the text, and the word that is left out.
fn push_cause(text: &mut Vec<u8>, cause: &Cause) -> Result<(), AllocError>
    ensures { OnOk result (text.new.items ≡ text.old.items ++ cause_text cause.now) }
{
    text.extend_from_slice(cause_name(cause))?;
    if let Cause::LeftOut(word) = cause {
        text.extend_from_slice(word.as_bytes())?;
    }
    Ok(())
}

/// The fault's number and name, with a space where its word follows.
fn cause_name(cause: &Cause) -> &'static [u8]
    ensures { result.now ≡ cause_name cause.now }
{
    match cause {
        Cause::NotUtf8 => b"20 NotUtf8",
        Cause::UnknownSection => b"21 UnknownSection",
        Cause::UnknownWord => b"22 UnknownWord",
        Cause::Missing => b"23 Missing",
        Cause::BadNumber => b"24 BadNumber",
        Cause::BadName => b"25 BadName",
        Cause::Duplicate => b"26 Duplicate",
        Cause::NoSuchName => b"27 NoSuchName",
        Cause::TooMany => b"28 TooMany",
        Cause::LeftOut(_) => b"29 LeftOut ",
    }
}

ghost use Rattle.std.specs.Prelude.{◌≡◌, None, IfOk, IsErrOf};
ghost use Rattle.lb_config.specs.Configs.{config_in};
ghost use Rattle.lb_types_counted.specs.Writers.{Rises};
ghost use Rattle.lb_run.specs.Jobs.{Hinders, HindersByPins, HasFailed, IsConfigText, IsHindrance, IsPinsHindrance, PrintsFault, Runs, RunsText};
ghost use Rattle.lb_run.specs.Jobs.{bind_line, path_of, pins_line, unread_line};

use crate::{Kept, PinsPlace, RunFault, run_config_keeping};
use lb_cli_faults::{JobError, config_fault_line};
use lb_config::{Config, read_config};
use lb_config_sections::{ConfigFault, LocatedFault};
use lb_desk_ports::OpenGate;
use lb_run_doors::handed_line;
use lb_run_floor::Host;
use lb_run_pins::{PinsFault, TextFault, TextFiles, read_pins};
use lb_types::Counted;
use std::alloc::{AllocError, Global};
use std::env::Env;
use std::fs::Files;
use std::io::Write;

/// Runs the configuration that the text is, and returns whether all went well. A configuration's fault is printed on `out` as `check`
/// prints it. An address that can't be bound, and a socket that was handed over and can't be used, are printed on `err`.
///
/// `OutOfMemory`: for the configuration, before anything ran, or in the run, whose threads were ended. `CannotRead`: the system's clock
/// or its random numbers, before anything ran. `CannotWrite`: what is printed, since a write failed.
pub fn run_text<R: Host + Files + TextFiles + Env, O: Write, E: Write>(
    rt: &R,
    alloc: Global,
    text: &[u8],
    out: &mut Counted<O>,
    err: &mut Counted<E>,
) -> Result<bool, JobError>
    ensures runs { IfOk result (λ is_done. RunsText None (config_in text.now) is_done
        out.old.contents out.new.contents err.old.contents err.new.contents) }
    ensures cannot_read { IsErrOf result JobError.CannotRead → IsConfigText (config_in text.now) }
    ensures cannot_write { IsErrOf result JobError.CannotWrite → HasFailed out.old out.new err.old err.new }
{
    run_text_keeping(rt, alloc, text, None, out, err)
}

/// The same, where pins outlive the process, if a place for them is given. The file there is read before an address is bound. One that
/// isn't there has no pins. One that can't be read, or that is no file of pins, is reported on `err`, and nothing runs.
pub fn run_text_keeping<R: Host + Files + TextFiles + Env, O: Write, E: Write>(
    rt: &R,
    alloc: Global,
    text: &[u8],
    place: Option<PinsPlace<'_>>,
    out: &mut Counted<O>,
    err: &mut Counted<E>,
) -> Result<bool, JobError>
    ensures runs { IfOk result (λ is_done. RunsText (path_of place.entry) (config_in text.now) is_done
        out.old.contents out.new.contents err.old.contents err.new.contents) }
    ensures cannot_read { IsErrOf result JobError.CannotRead → IsConfigText (config_in text.now) }
    ensures cannot_write { IsErrOf result JobError.CannotWrite → HasFailed out.old out.new err.old err.new }
{
    match read_config(alloc, text) {
        Ok(config) => read_and_run(rt, alloc, &config, place, out, err),
        Err(ConfigFault::Fault(fault)) => print_fault(alloc, &fault, out),
        Err(ConfigFault::Memory) => Err(JobError::OutOfMemory),
    }
}

/// Reads the file of pins, if there is a place for one, and runs the configuration.
fn read_and_run<R: Host + Files + TextFiles + Env, O: Write, E: Write>(
    rt: &R,
    alloc: Global,
    config: &Config,
    place: Option<PinsPlace<'_>>,
    out: &mut Counted<O>,
    err: &mut Counted<E>,
) -> Result<bool, JobError>
    ensures runs { IfOk result (λ is_done. Runs (path_of place.entry) config.now is_done
        out.old.contents out.new.contents err.old.contents err.new.contents) }
    ensures cannot_write { IsErrOf result JobError.CannotWrite → HasFailed out.old out.new err.old err.new }
{
    let Some(place) = place else {
        return run_and_report(rt, alloc, config, None, out, err);
    };
    match read_pins(rt, alloc, place.path) {
        Ok(file) => run_and_report(rt, alloc, config, Some(Kept { place, file }), out, err),
        Err(PinsFault::Memory) => Err(JobError::OutOfMemory),
        Err(PinsFault::CannotRead) => {
            print_pins_fault(err, place.path, &unread_line(alloc, place.path)?)
        }
        Err(PinsFault::Text(fault)) => {
            print_pins_fault(err, place.path, &pins_line(alloc, place.path, fault)?)
        }
    }
}

fn run_and_report<R: Host + Files + TextFiles + Env, O: Write, E: Write>(
    rt: &R,
    alloc: Global,
    config: &Config,
    kept: Option<Kept<'_>>,
    out: &mut Counted<O>,
    err: &mut Counted<E>,
) -> Result<bool, JobError>
    ensures runs { IfOk result (λ is_done. Runs None config.now is_done
        out.old.contents out.new.contents err.old.contents err.new.contents) }
    ensures cannot_write { IsErrOf result JobError.CannotWrite → HasFailed out.old out.new err.old err.new }
{
    match run_config_keeping(rt, alloc, config, kept, OpenGate, out) {
        Ok(()) => Ok(true),
        Err(RunFault::Bind(address)) => print_hindrance(err, &bind_line(alloc, &address)?),
        Err(RunFault::Handed(fault)) => print_hindrance(err, &handed_line(alloc, &fault)?),
        Err(RunFault::StillOpen(_)) => print_hindrance(err, b"a backend can't be closed\n"),
        Err(RunFault::Memory) => Err(JobError::OutOfMemory),
        Err(RunFault::System) => Err(JobError::CannotRead),
        Err(RunFault::CannotWrite) => Err(JobError::CannotWrite),
    }
}

/// That this address can't be bound.
fn bind_line(alloc: Global, address: &[u8]) -> Result<Vec<u8>, AllocError>
    ensures { IfOk result (λ line. line.items ≡ bind_line address.now) }
{
    let mut line = Vec::new(alloc);
    line.extend_from_slice(b"cannot bind ")?;
    line.extend_from_slice(address)?;
    line.extend_from_slice(b"\n")?;
    Ok(line)
}

/// That this file can't be read.
fn unread_line(alloc: Global, path: &str) -> Result<Vec<u8>, AllocError>
    ensures { IfOk result (λ line. line.items ≡ unread_line path.now) }
{
    let mut line = Vec::new(alloc);
    line.extend_from_slice(b"cannot read ")?;
    line.extend_from_slice(path.as_bytes())?;
    line.extend_from_slice(b"\n")?;
    Ok(line)
}

/// That this file is no file of pins.
fn pins_line(alloc: Global, path: &str, fault: TextFault) -> Result<Vec<u8>, AllocError>
    ensures { IfOk result (λ line. line.items ≡ pins_line path.now fault) }
{
    let mut line = Vec::new(alloc);
    line.extend_from_slice(path.as_bytes())?;
    line.extend_from_slice(b": ")?;
    line.extend_from_slice(fault.text(alloc)?.as_bytes())?;
    line.extend_from_slice(b"\n")?;
    Ok(line)
}

/// Prints the configuration's fault.
fn print_fault<O: Write>(
    alloc: Global,
    fault: &LocatedFault,
    out: &mut Counted<O>,
) -> Result<bool, JobError>
    ensures prints { IfOk result (λ is_done. PrintsFault fault.now is_done out.old.contents out.new.contents) }
    ensures cannot_read { IsErrOf result JobError.CannotRead → ⊥ }
    ensures cannot_write { IsErrOf result JobError.CannotWrite → Rises out.old.failures out.new.failures }
{
    let line = config_fault_line(alloc, fault)?;
    match out.write_all(&line) {
        Ok(()) => Ok(false),
        Err(_) => Err(JobError::CannotWrite),
    }
}

/// Prints on standard error what was in the way.
fn print_hindrance<E: Write>(err: &mut Counted<E>, line: &[u8]) -> Result<bool, JobError>
    requires { IsHindrance line.now }
    ensures hinders { IfOk result (λ is_done. Hinders is_done err.old.contents err.new.contents) }
    ensures cannot_write { IsErrOf result JobError.CannotWrite → Rises err.old.failures err.new.failures }
{
    match err.write_all(line) {
        Ok(()) => Ok(false),
        Err(_) => Err(JobError::CannotWrite),
    }
}

/// Prints on standard error why this file of pins wasn't read.
fn print_pins_fault<E: Write>(
    err: &mut Counted<E>,
    path: &str,
    line: &[u8],
) -> Result<bool, JobError>
    requires { IsPinsHindrance path.now line.now }
    ensures hinders { IfOk result (λ is_done. HindersByPins path.now is_done err.old.contents err.new.contents) }
    ensures cannot_write { IsErrOf result JobError.CannotWrite → Rises err.old.failures err.new.failures }
{
    match err.write_all(line) {
        Ok(()) => Ok(false),
        Err(_) => Err(JobError::CannotWrite),
    }
}

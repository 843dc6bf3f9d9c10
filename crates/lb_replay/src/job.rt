ghost use Rattle.std.specs.Prelude.{◌≡◌, ◌<◌, [], false, length, IfOk, IfSome, OnOk};
ghost use Rattle.std.specs.Io.KnownBytes.{Appends};
ghost use Rattle.lb_cli_faults.specs.Faults.{fault_line};
ghost use Rattle.lb_desk_step.specs.Desk.{StandsAt};
ghost use Rattle.lb_replay.specs.Days.{opening_day};
ghost use Rattle.lb_replay.specs.Replays.{IsReplayOf, Writes, bad_line};
ghost use Rattle.lb_replay.specs.Steps.{Replays, ReplaysFarm};

use crate::answers::{answer, is_bad};
use crate::day::Day;
use crate::farm::Farm;
use crate::pieces::{Piece, read_piece};
use lb_cli_faults::{JobError, config_fault_line};
use lb_config::{Config, read_config};
use lb_config_sections::{ConfigFault, LocatedFault};
use lb_desk_backend::backend_of;
use lb_replay_lines::ScriptLines;
use lb_script::only_backend;
use lb_types_counted::Counted;
use std::alloc::{AllocError, Global};
use std::hash::{BuildHasher, BuildHasherDefault, FoldHasher};
use std::io::{BufRead, Write};

/// Opens the one backend with servers of a configuration, hands in what the script asks for, line by line, and prints one answer for
/// each thing. Returns whether nothing prevented it.
///
/// A configuration's fault is printed on `out` as `check` prints it. A line on `err` says that none or several backends have servers,
/// or which line of the script is the first bad one; nothing is read after that line. Refusals are answers like others. Nothing is
/// flushed: give it writers that buffer.
///
/// Each line and each plan's text is held whole; so are the pins, the journal and the sheets of the script's snapshots. An event costs
/// what it costs the backend, and `install` and `plan` a whole planning.
pub fn replay<S: BufRead + Drop, O: Write, E: Write>(
    alloc: Global,
    config: &[u8],
    script: S,
    out: &mut Counted<O>,
    err: &mut E,
) -> Result<bool, JobError>
    ensures { IfOk result (λ is_whole. IfSome (S.remaining script) (λ lines.
        Writes (IsReplayOf config.now lines) is_whole out.old.contents out.new.contents (E.contents err.old) (E.contents err.new))) }
{
    let config = match read_config(alloc, config) {
        Ok(config) => config,
        Err(ConfigFault::Fault(fault)) => return tell_fault(alloc, &fault, out),
        Err(ConfigFault::Memory) => return Err(JobError::OutOfMemory),
    };
    let Some(place) = only_backend(&config) else {
        return complain(err, b"replay needs one backend\n");
    };
    match replay_at(alloc, &config, place, script, out)? {
        Some(number) => complain(err, &bad_line(alloc, number)?),
        None => Ok(true),
    }
}

/// Replays the script at the backend, and returns the number of its first bad line.
fn replay_at<S: BufRead + Drop, O: Write>(
    alloc: Global,
    config: &Config,
    place: usize,
    script: S,
    out: &mut Counted<O>,
) -> Result<Option<u64>, JobError>
    requires { place < length config.now.backends }
    ensures { IfOk result (λ bad. IfSome (S.remaining script) (λ lines.
        ReplaysFarm config.now place lines bad out.old.contents out.new.contents)) }
{
    let own = &config.backends()[place];
    let backend = backend_of(alloc, own)?;
    let farm = Farm {
        config,
        place,
        own,
        backend: &backend,
    };
    let mut day = Day::open(alloc, &farm, BuildHasherDefault::<FoldHasher>::new())?;
    replay_lines(alloc, &farm, &mut day, script, out)
}

/// Answers the script's pieces, one after another, up to the first bad line, whose number it returns.
fn replay_lines<H: BuildHasher, S: BufRead + Drop, O: Write>(
    alloc: Global,
    farm: &Farm<'_>,
    day: &mut Day<H>,
    script: S,
    out: &mut Counted<O>,
) -> Result<Option<u64>, JobError>
    requires opening { day.old ≡ opening_day farm.now }
    requires stands { StandsAt farm.now.backend [] day.old.desk }
    ensures { IfOk result (λ bad. IfSome (S.remaining script) (λ lines.
        Replays farm.now lines bad out.old.contents out.new.contents)) }
{
    let mut lines = ScriptLines::new(alloc, script);
    for _ in 0..u64::MAX {
        let said = match read_piece(alloc, farm, &mut lines)? {
            Piece::Said(said) => said,
            Piece::Bad => return Ok(Some(lines.number())),
            Piece::End => return Ok(None),
        };
        if is_bad(day, &said) {
            return Ok(Some(lines.number()));
        }
        answer(day, farm, said, lines.piece(), out)?;
    }
    Err(JobError::CannotRead)
}

/// Prints the configuration's fault.
fn tell_fault<O: Write>(
    alloc: Global,
    fault: &LocatedFault,
    out: &mut Counted<O>,
) -> Result<bool, JobError>
    ensures told { OnOk result (Appends out.old.contents out.new.contents (fault_line fault.now)) }
    ensures whole { IfOk result (λ is_whole. is_whole ≡ false) }
{
    let line = config_fault_line(alloc, fault)?;
    match out.write_all(&line) {
        Ok(()) => Ok(false),
        Err(_) => Err(JobError::CannotWrite),
    }
}

/// Writes to standard error what prevents the replay.
fn complain<E: Write>(err: &mut E, line: &[u8]) -> Result<bool, JobError>
    ensures told { OnOk result (Appends (E.contents err.old) (E.contents err.new) line.now) }
    ensures whole { IfOk result (λ is_whole. is_whole ≡ false) }
{
    match err.write_all(line) {
        Ok(()) => Ok(false),
        Err(_) => Err(JobError::CannotWrite),
    }
}

/// That the line of this number is bad.
fn bad_line(alloc: Global, number: u64) -> Result<Vec<u8>, AllocError>
    ensures { IfOk result (λ line. line.items ≡ bad_line number) }
{
    let mut line = Vec::new(alloc);
    line.extend_from_slice(b"line ")?;
    line.extend_from_slice(number.to_string(alloc)?.as_bytes())?;
    line.extend_from_slice(b": bad script line\n")?;
    Ok(line)
}

ghost use Rattle.std.specs.Prelude.{◌≡◌, Some, IfOk};
ghost use Rattle.lb_replay.specs.Pieces.{is_plan_text};
ghost use Rattle.lb_replay.specs.Steps.{ReadsPiece};

use crate::farm::Farm;
use lb_cli_faults::JobError;
use lb_replay_lines::ScriptLines;
use lb_script::{ScriptLine, read_line};
use std::alloc::Global;
use std::io;
use std::io::{BufRead, ErrorKind};

/// What is next in a script.
#[derive(Debug, Drop)]
pub(crate) enum Piece {
    /// Nothing.
    End,
    /// A line of no form.
    Bad,
    /// A line that asks for this, or a plan's text.
    Said(ScriptLine),
}

/// Reads the next piece of the script.
pub(crate) fn read_piece<S: BufRead>(
    alloc: Global,
    farm: &Farm<'_>,
    lines: &mut ScriptLines<S>,
) -> Result<Piece, JobError>
    ensures { IfOk result (ReadsPiece farm.now lines.old lines.new) }
{
    if !lines.next_line().map_err(read_failure)? {
        return Ok(Piece::End);
    }
    let Some(said) = read_line(alloc, farm.config, farm.own, lines.line())? else {
        return Ok(Piece::Bad);
    };
    if !is_plan_text(&said) {
        return Ok(Piece::Said(said));
    }
    lines.read_plan_text().map_err(read_failure)?;
    Ok(Piece::Said(said))
}

/// Whether a plan's text begins here.
fn is_plan_text(said: &ScriptLine) -> bool
    ensures { result ≡ is_plan_text (Some said.now) }
{
    matches!(said, ScriptLine::PlanText)
}

/// Why the script can't be read on.
fn read_failure(error: io::Error) -> JobError {
    match error.kind() {
        ErrorKind::OutOfMemory => JobError::OutOfMemory,
        _ => JobError::CannotRead,
    }
}

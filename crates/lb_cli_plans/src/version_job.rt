ghost use Rattle.std.specs.Prelude.{◌≡◌, true, OnOk, OnErr, IfOk, IfErr};
ghost use Rattle.std.specs.Io.KnownBytes.{Appends};
ghost use Rattle.lb_types_counted.specs.Writers.{WritesFront};
ghost use Rattle.lb_cli_ends.specs.declared.job_error.JobError.TheVariants.{CannotWrite};
ghost use Rattle.lb_cli_plans.specs.declared.version_job.TheConstants.{VERSION};

use lb_cli_ends::JobError;
use lb_types::Counted;
use std::io::Write;

/// The line of the program's version, and of the logic that proves it, whose digest `rt version` prints last.
pub const VERSION: &[u8] = b"stickylb 0.1.0, proved with rattle logic dac8208d650f15bf\n";

/// Writes the line `VERSION`.
pub fn version<W: Write>(out: &mut Counted<W>) -> Result<bool, JobError>
    ensures done { IfOk result (λ done. done ≡ true) }
    ensures written { OnOk result (Appends out.old.contents out.new.contents VERSION.now) }

    // Where it is hindered.
    ensures hindered { IfErr result (λ error. error ≡ CannotWrite) }
    ensures cut { OnErr result (WritesFront out.old out.new VERSION.now) }
{
    match out.write_all(VERSION) {
        Ok(()) => Ok(true),
        Err(_) => Err(JobError::CannotWrite),
    }
}

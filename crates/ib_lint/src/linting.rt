// A configuration is read and looked at.
ghost use Rattle.std.specs.Prelude.{IfOk, IfErr};
ghost use Rattle.outside.specs.Reads.{Reads};
ghost use Rattle.run_steps.specs.Stops.{StopsFor};
ghost use Rattle.program.specs.Made.{outcome_of, IsPromised};
ghost use Rattle.ib_lint.specs.Job.{IsLinting};
ghost use Rattle.ib_lint.specs.Promises.{IsCleanFile};

use crate::judging::judge;
use config_files::read_config_file;
use outside::Files;
use program::Made;
use run_steps::Stop;
use std::alloc::Global;

/// Reads a configuration, and makes the lines of its warnings.
pub(crate) fn prepare<F: Files>(alloc: Global, file: &str, files: &mut F) -> Result<Made, Stop>
    ensures made { IfOk result (λ made. IsLinting (F.held files.old) file.now (outcome_of made)) }
    ensures clean { IfOk result (IsPromised (IsCleanFile (F.held files.old) file.now)) }
    ensures stopped { IfErr result (StopsFor F.counts files.old files.new (IsLinting (F.held files.old) file.now)) }
    ensures only_read { Reads F.held F.counts files.old files.new }
{
    let config = read_config_file(alloc, file, files)?;
    let made = judge(alloc, &config)?;
    Ok(made)
}

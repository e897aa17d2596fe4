// A configuration is read and shown.
ghost use Rattle.std.specs.Prelude.{IfOk, IfErr};
ghost use Rattle.outside.specs.Reads.{Reads};
ghost use Rattle.run_steps.specs.Outputs.{files_of, report_of};
ghost use Rattle.run_steps.specs.PrivateOutcomes.{outcome_of};
ghost use Rattle.run_steps.specs.Stops.{StopsFor};
ghost use Rattle.ib_config_show.specs.Job.{IsShowing};
ghost use Rattle.ib_config_show.specs.Promises.{ShowsFile};

use crate::settings::show_config;
use config_files::read_config_file;
use outside::Files;
use run_steps::{Build, Stop};
use std::alloc::Global;
use texts::{Bytes, List};

/// Reads a configuration, and makes the lines that say what it says.
pub(crate) fn prepare<F: Files>(alloc: Global, file: &str, files: &mut F) -> Result<Build, Stop>
    ensures built { IfOk result (λ build. IsShowing (F.held files.old) file.now (outcome_of build)) }
    ensures shown { IfOk result (λ build. ShowsFile (F.held files.old) file.now (files_of build) (report_of build)) }
    ensures stopped { IfErr result (StopsFor F.counts files.old files.new (IsShowing (F.held files.old) file.now)) }
    ensures only_read { Reads F.held F.counts files.old files.new }
{
    let config = read_config_file(alloc, file, files)?;
    let text = show_config(alloc, &config)?;
    Ok(Build {
        outputs: List::new(alloc),
        report: Some(Bytes::from(text.into_bytes())),
    })
}

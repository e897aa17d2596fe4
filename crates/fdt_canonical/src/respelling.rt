// A tree's file is read and respelled.
ghost use Rattle.std.specs.Prelude.{IfOk, IfErr};
ghost use Rattle.outside.specs.Reads.{Reads};
ghost use Rattle.run_steps.specs.Outputs.{files_of, report_of};
ghost use Rattle.run_steps.specs.PrivateOutcomes.{outcome_of};
ghost use Rattle.run_steps.specs.Stops.{StopsFor};
ghost use Rattle.fdt_canonical.specs.Job.{IsFileRespelling};
ghost use Rattle.fdt_canonical.specs.Promises.{IsRespelledFile};

use crate::canonical::canonical;
use outside::Files;
use run_steps::{Build, Stop, read_file};
use std::alloc::Global;
use texts::List;

// The longest tree that is read, in bytes.
const TREE_LIMIT: u64 = 1_048_576;

/// Reads a tree's file, and makes its canonical spelling.
pub(crate) fn prepare<F: Files>(alloc: Global, file: &str, files: &mut F) -> Result<Build, Stop>
    ensures built { IfOk result (λ build. IsFileRespelling (F.held files.old) file.now (outcome_of build)) }
    ensures respelled { IfOk result (λ build. IsRespelledFile (F.held files.old) file.now (files_of build) (report_of build)) }
    ensures stopped { IfErr result (StopsFor F.counts files.old files.new (IsFileRespelling (F.held files.old) file.now)) }
    ensures only_read { Reads F.held F.counts files.old files.new }
{
    let bytes = read_file(alloc, file, TREE_LIMIT, files)?;
    let spelling = canonical(alloc, file, &bytes)?;
    Ok(Build {
        outputs: List::new(alloc),
        report: Some(spelling),
    })
}

// What a run makes before its first write.
ghost use Rattle.std.specs.Prelude.{◌≡◌, IfOk, IfErr};
ghost use Rattle.outside.specs.Reads.{Reads};
ghost use Rattle.run_steps.specs.PrivateOutcomes.{outcome_of};
ghost use Rattle.run_steps.specs.Stops.{StopsFor};
ghost use Rattle.guest_load.specs.Job.{IsAskedJob};
ghost use Rattle.guest_load.specs.PrivateMeant.{meant};

use crate::loading::load_parts;
use crate::parts::read_parts;
use crate::words::Asked;
use outside::Files;
use run_steps::{Build, Stop};
use std::alloc::Global;

/// Reads the files and makes all that is to be written.
pub(crate) fn prepare<F: Files>(
    alloc: Global,
    asked: &Asked<'_>,
    files: &mut F,
) -> Result<Build, Stop>
    ensures built { IfOk result (λ build. IsAskedJob (F.held files.old) (meant asked.now) (outcome_of build)) }
    ensures stopped { IfErr result (StopsFor F.counts files.old files.new (IsAskedJob (F.held files.old) (meant asked.now))) }
    ensures kept { F.held files.new ≡ F.held files.old }
{
    let parts = read_parts(alloc, asked, files)?;
    load_parts(alloc, asked.out, parts)
}

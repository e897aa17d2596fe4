// What a run makes before its first write.
ghost use Rattle.std.specs.Prelude.{◌≡◌, IfOk, IfErr};
ghost use Rattle.run_steps.specs.PrivateOutcomes.{outcome_of};
ghost use Rattle.run_steps.specs.Stops.{StopsFor};
ghost use Rattle.fdt_source.specs.Job.{IsAskedJob};
ghost use Rattle.fdt_source.specs.PrivateMeant.{meant};

use crate::text_building::build_file;
use crate::tree_printing::print_file;
use crate::words::Asked;
use outside::Files;
use run_steps::{Build, Stop};
use std::alloc::Global;

/// Reads the file and makes all that is to be written.
pub(crate) fn prepare<F: Files>(
    alloc: Global,
    asked: &Asked<'_>,
    files: &mut F,
) -> Result<Build, Stop>
    ensures built { IfOk result (λ build. IsAskedJob (F.held files.old) (meant asked.now) (outcome_of build)) }
    ensures stopped { IfErr result (StopsFor F.counts files.old files.new (IsAskedJob (F.held files.old) (meant asked.now))) }
    ensures kept { F.held files.new ≡ F.held files.old }
{
    match *asked {
        Asked::Print(tree) => print_file(alloc, tree, files),
        Asked::Build(text, out) => build_file(alloc, text, out, files),
    }
}

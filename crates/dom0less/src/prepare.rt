// What a run makes before its first write.
ghost use Rattle.std.specs.Prelude.{◌≡◌, ◌≤◌, IfErr, IfOk};
ghost use Rattle.outside.specs.Reads.{Reads};
ghost use Rattle.dom0less_words.specs.Meant.{meant};
ghost use Rattle.run_steps.specs.Outputs.{files_of, report_of};
ghost use Rattle.run_steps.specs.PrivateOutcomes.{outcome_of};
ghost use Rattle.run_steps.specs.Stops.{StopsFor};
ghost use Rattle.dom0less.specs.Promises.{IsAskedPromise};
ghost use Rattle.dom0less.specs.Job.{IsAskedJob};

use crate::build::prepare_build;
use crate::check::prepare_check;
use crate::generated::prepare_generated;
use crate::listing::prepare_listing;
use crate::script::prepare_script;
use dom0less_words::Asked;
use outside::Files;
use run_steps::{Build, Stop};
use std::alloc::Global;

/// Reads the files and makes all that is to be written.
pub(crate) fn prepare<F: Files>(
    alloc: Global,
    asked: &Asked<'_>,
    files: &mut F,
) -> Result<Build, Stop>
    requires { (number : _) → asked.now ≡ Asked.Generate number → number ≤ 1000000 }
    ensures built { IfOk result (λ build. IsAskedJob (F.held files.old) (meant asked.now) (outcome_of build)) }
    ensures promised { IfOk result (λ build. IsAskedPromise (F.held files.old) (meant asked.now) (files_of build) (report_of build)) }
    ensures stopped { IfErr result (StopsFor F.counts files.old files.new (IsAskedJob (F.held files.old) (meant asked.now))) }
    ensures kept { F.held files.new ≡ F.held files.old }
{
    match asked {
        Asked::Build(source, folder) => prepare_build(alloc, source, *folder, files),
        Asked::Check(source, folder) => prepare_check(alloc, source, *folder, files),
        Asked::Script(script) => prepare_script(alloc, script, files),
        Asked::Show(tree) => prepare_listing(alloc, tree, files),
        Asked::Generate(number) => prepare_generated(alloc, *number),
    }
}

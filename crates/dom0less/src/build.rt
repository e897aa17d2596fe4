// The build of what is described.
ghost use Rattle.std.specs.Prelude.{◌≡◌, ◌++◌, IfErr, IfOk, IsTrue, map, not};
ghost use Rattle.std.specs.List.{list_all};
ghost use Rattle.std.specs.Option.{option_copied};
ghost use Rattle.fdt_read.specs.Reservations.{is_last_pair};
ghost use Rattle.dom0less_words.specs.Meant.{meant_source};
ghost use Rattle.run_steps.specs.Outputs.{file_of, files_of, report_of};
ghost use Rattle.run_steps.specs.PrivateOutcomes.{outcome_of};
ghost use Rattle.run_steps.specs.Stops.{StopsFor, IsOwnDue};
ghost use Rattle.domain_plan.specs.Descriptions.{description_of};
ghost use Rattle.build_sources.specs.Meant.{meant_stand};
ghost use Rattle.dom0less.specs.Builds.{IsBuildJob, IsDescribedJob};
ghost use Rattle.dom0less.specs.Headline.{IsDescribedBuild, IsStandBuild};

use build_outputs::{Built, build_described};
use build_sources::{Stand, folder_of, read_partials, read_source};
use dom0less_words::Source;
use domain_plan::plan_tree;
use fdt_tree::Tree;
use outside::Files;
use run_steps::{Build, Output, Stop};
use std::alloc::{AllocError, Global};
use texts::{Bytes, List};

/// What is written for the guests that are described where a build begins; the outputs are in a folder, where one is given.
pub(crate) fn prepare_build<F: Files>(
    alloc: Global,
    source: &Source<'_>,
    folder: Option<&str>,
    files: &mut F,
) -> Result<Build, Stop>
    ensures built { IfOk result (λ build. IsBuildJob (F.held files.old) (meant_source source.now) (option_copied folder.entry) (outcome_of build)) }
    ensures promised { IfOk result (λ build. IsDescribedBuild (F.held files.old) (meant_source source.now) (option_copied folder.entry) (files_of build) (report_of build)) }
    ensures stopped { IfErr result (StopsFor F.counts files.old files.new (IsBuildJob (F.held files.old) (meant_source source.now) (option_copied folder.entry))) }
    ensures kept { F.held files.new ≡ F.held files.old }
{
    let stand = match read_source(alloc, source, folder, files) {
        Ok(stand) => stand,
        Err(stop) => return Err(stop),
    };
    let partials = match read_partials(alloc, &stand, folder_of(source), files) {
        Ok(partials) => partials,
        Err(stop) => return Err(stop),
    };
    make_build(alloc, stand, &partials, folder)
}

/// What is written for what stands there, with the guests' partial trees.
fn make_build(
    alloc: Global,
    stand: Stand,
    partials: &[Option<Tree>],
    folder: Option<&str>,
) -> Result<Build, Stop>
    requires { IsTrue (list_all (λ reserve. not (is_last_pair reserve)) stand.reserves) }
    ensures built { IfOk result (λ build. IsDescribedJob (option_copied folder.entry) (meant_stand stand) (description_of stand.tree stand.reserves stand.loads partials.now) (outcome_of build)) }
    ensures promised { IfOk result (λ build. IsStandBuild (option_copied folder.entry) (meant_stand stand) (description_of stand.tree stand.reserves stand.loads partials.now) (files_of build) (report_of build)) }
    ensures stopped { IfErr result (λ stop. IsOwnDue (IsDescribedJob (option_copied folder.entry) (meant_stand stand) (description_of stand.tree stand.reserves stand.loads partials.now)) stop) }
{
    let Built {
        outputs,
        report,
        ..
    } = build_described(
        alloc,
        &stand.tree,
        stand.reserves.as_slice(),
        stand.boot,
        &stand.loads,
        partials,
        folder,
    )?;
    Ok(put_behind(stand.before, stand.lines, outputs, &report)?)
}

/// Outputs behind those that come before, and a report behind the lines that come before.
fn put_behind(
    before: List<Output>,
    lines: Bytes,
    outputs: List<Output>,
    report: &Bytes,
) -> Result<Build, AllocError>
    ensures outputs { IfOk result (λ build. files_of build ≡ map file_of before ++ map file_of outputs) }
    ensures report { IfOk result (λ build. report_of build ≡ lines ++ report.now) }
{
    let mut all = before;
    for output in outputs.into_vec() {
        all.push(output)?;
    }
    let mut text = lines;
    text.append(report.as_slice())?;
    Ok(Build {
        outputs: all,
        report: Some(text),
    })
}

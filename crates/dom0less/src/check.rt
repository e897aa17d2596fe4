// The audit of the images of what is described.
ghost use Rattle.std.specs.Prelude.{◌≡◌, IfErr, IfOk, []};
ghost use Rattle.std.specs.Option.{option_copied};
ghost use Rattle.dom0less_words.specs.Meant.{meant_source};
ghost use Rattle.run_steps.specs.Outputs.{files_of, report_of};
ghost use Rattle.run_steps.specs.PrivateOutcomes.{outcome_of};
ghost use Rattle.run_steps.specs.Stops.{StopsFor};
ghost use Rattle.domain_plan.specs.Descriptions.{description_of};
ghost use Rattle.run_steps.specs.Endings.{Builds};
ghost use Rattle.image_audit.specs.Texts.{checked_line};
ghost use Rattle.dom0less.specs.Checks.{IsCheckJob, IsDescribedCheck};
ghost use Rattle.dom0less.specs.Headline.{IsDescribedAudit, IsPlanAudited};

use build_outputs::plan_stop;
use build_sources::{Stand, folder_of, read_partials, read_source};
use dom0less_words::Source;
use domain_plan::plan_tree;
use fdt_tree::Tree;
use image_audit::{audit_images, make_checked_line};
use outside::Files;
use run_steps::{Build, Stop};
use std::alloc::{AllocError, Global};
use texts::List;

/// What is put where nothing is found in the images of the guests that are described where a build begins; the images are in
/// a folder, where one is given.
pub(crate) fn prepare_check<F: Files>(
    alloc: Global,
    source: &Source<'_>,
    folder: Option<&str>,
    files: &mut F,
) -> Result<Build, Stop>
    ensures built { IfOk result (λ build. IsCheckJob (F.held files.old) (meant_source source.now) (option_copied folder.entry) (outcome_of build)) }
    ensures outputs { IfOk result (λ build. files_of build ≡ []) }
    ensures promised { IfOk result (λ build. IsDescribedAudit (F.held files.old) (meant_source source.now) (option_copied folder.entry) (report_of build)) }
    ensures stopped { IfErr result (StopsFor F.counts files.old files.new (IsCheckJob (F.held files.old) (meant_source source.now) (option_copied folder.entry))) }
    ensures kept { F.held files.new ≡ F.held files.old }
{
    let stand = match read_source(alloc, source, folder, files) {
        Ok(stand) => stand,
        Err(stop) => return Err(stop),
    };
    let partials = match read_partials(alloc, &stand, folder_of(source), files) {
        Ok(partials) => partials,
        Err(stop) => return Err(stop),
    };
    audit_described(alloc, &stand, &partials, folder, files)
}

/// What is put where nothing is found in the images of what stands there, with the guests' partial trees.
fn audit_described<F: Files>(
    alloc: Global,
    stand: &Stand,
    partials: &[Option<Tree>],
    folder: Option<&str>,
    files: &mut F,
) -> Result<Build, Stop>
    ensures built { IfOk result (λ build. IsDescribedCheck (F.held files.old) (option_copied folder.entry) (description_of stand.now.tree stand.now.reserves stand.now.loads partials.now) (outcome_of build)) }
    ensures outputs { IfOk result (λ build. files_of build ≡ []) }
    ensures promised { IfOk result (λ build. IsPlanAudited (F.held files.old) (option_copied folder.entry) (description_of stand.now.tree stand.now.reserves stand.now.loads partials.now) (report_of build)) }
    ensures stopped { IfErr result (StopsFor F.counts files.old files.new (IsDescribedCheck (F.held files.old) (option_copied folder.entry) (description_of stand.now.tree stand.now.reserves stand.now.loads partials.now))) }
    ensures kept { F.held files.new ≡ F.held files.old }
{
    let plan = match plan_tree(
        alloc,
        &stand.tree,
        stand.reserves.as_slice(),
        &stand.loads,
        partials,
    ) {
        Ok(plan) => plan,
        Err(fault) => return Err(plan_stop(alloc, fault)),
    };
    let guests = plan.guests.as_slice();
    match audit_images(alloc, guests, folder, files) {
        Ok(()) => Ok(put_checked(alloc, guests.len() as u64)?),
        Err(stop) => Err(stop),
    }
}

/// How many guests were audited, as a report without outputs.
fn put_checked(alloc: Global, guests: u64) -> Result<Build, AllocError>
    ensures { IfOk result (λ build. outcome_of build ≡ Builds [] (checked_line guests)) }
{
    let line = make_checked_line(alloc, guests)?;
    Ok(Build {
        outputs: List::new(alloc),
        report: Some(line),
    })
}

// The listing of a tree.
ghost use Rattle.std.specs.Prelude.{◌≡◌, IfErr, IfOk, []};
ghost use Rattle.run_steps.specs.Outputs.{files_of, report_of};
ghost use Rattle.run_steps.specs.PrivateOutcomes.{outcome_of};
ghost use Rattle.run_steps.specs.Stops.{StopsFor};
ghost use Rattle.tree_files.specs.Trees.{AfterTreeFile, flat_tree};
ghost use Rattle.dom0less.specs.Headline.{IsListing};
ghost use Rattle.dom0less.specs.Job.{IsTreeListing};

use fdt_listing::list;
use outside::Files;
use run_steps::{Build, Stop};
use std::alloc::{AllocError, Global};
use texts::{Bytes, List};
use tree_files::{TreeFile, read_tree};

/// What is put for the tree of this file, where it is to be listed.
pub(crate) fn prepare_listing<F: Files>(
    alloc: Global,
    name: &str,
    files: &mut F,
) -> Result<Build, Stop>
    ensures built { IfOk result (λ build. AfterTreeFile (F.held files.old) name.now IsTreeListing (outcome_of build)) }
    ensures promised { IfOk result (λ build. (files_of build ≡ []) × IsListing (F.held files.old) name.now (report_of build)) }
    ensures stopped { IfErr result (StopsFor F.counts files.old files.new (AfterTreeFile (F.held files.old) name.now IsTreeListing)) }
    ensures kept { F.held files.new ≡ F.held files.old }
{
    let tree = read_tree(alloc, name, files)?;
    Ok(make_listing(alloc, &tree)?)
}

/// The listing of a tree, as a report without outputs.
fn make_listing(alloc: Global, tree: &TreeFile) -> Result<Build, AllocError>
    ensures { IfOk result (λ build. IsTreeListing (flat_tree tree.now) (outcome_of build)) }
{
    let listing = list(alloc, &tree.flat.tree, tree.flat.reserves.as_slice())?;
    Ok(Build {
        outputs: List::new(alloc),
        report: Some(Bytes::from(listing)),
    })
}

// The build of a generated tree.
ghost use Rattle.std.specs.Prelude.{◌≡◌, ◌≤◌, IfErr, IfOk, []};
ghost use Rattle.run_steps.specs.Endings.{Builds};
ghost use Rattle.run_steps.specs.PrivateOutcomes.{outcome_of};
ghost use Rattle.run_steps.specs.Stops.{IsOwnDue};
ghost use Rattle.dom0less.specs.Generated.{IsGeneratedJob, totals_line};

use build_outputs::{Totals, append_generated, build_described};
use run_steps::{Build, Stop};
use std::alloc::{AllocError, Global};
use texts::{Bytes, List};
use tree_generator::generated_tree;

/// What is put for the tree that is generated for a number up to 1,000,000: the line of its totals. Nothing is written.
pub(crate) fn prepare_generated(alloc: Global, number: u64) -> Result<Build, Stop>
    requires { number ≤ 1000000 }
    ensures built { IfOk result (λ build. IsGeneratedJob number (outcome_of build)) }
    ensures stopped { IfErr result (λ stop. IsOwnDue (IsGeneratedJob number) stop) }
{
    let tree = generated_tree(alloc, number as u32)?;
    let loads = List::new(alloc);
    let built = match build_described(alloc, &tree, &[], 0, &loads, &[], None) {
        Ok(built) => built,
        Err(stop) => return Err(stop),
    };
    Ok(put_totals(alloc, number, &built.totals)?)
}

/// The line of totals as a report without outputs.
fn put_totals(alloc: Global, number: u64, totals: &Totals) -> Result<Build, AllocError>
    ensures { IfOk result (λ build. outcome_of build ≡ Builds [] (totals_line number totals.now)) }
{
    let mut line = Bytes::new(alloc);
    append_generated(
        alloc,
        &mut line,
        number,
        totals.guests,
        totals.ram,
        totals.tables,
        totals.free,
    )?;
    Ok(Build {
        outputs: List::new(alloc),
        report: Some(line),
    })
}

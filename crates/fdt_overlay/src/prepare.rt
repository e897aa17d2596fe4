// What a run makes before its first write.
ghost use Rattle.std.specs.Prelude.{◌≡◌, Ok, IfOk, IfErr, IsTrue, map, not, string_bytes};
ghost use Rattle.std.specs.List.{list_all};
ghost use Rattle.fdt_read.specs.Reservations.{is_last_pair};
ghost use Rattle.outside.specs.Reads.{Reads};
ghost use Rattle.run_steps.specs.PrivateOutcomes.{outcome_of};
ghost use Rattle.run_steps.specs.Steps.{nothing};
ghost use Rattle.run_steps.specs.Stops.{StopsFor, IsOwnDue};
ghost use Rattle.overlaid_trees.specs.Applied.{applied};
ghost use Rattle.fdt_overlay.specs.Overlays.{AfterApplied, AfterOverlay, AfterOverlays, AfterAll};
ghost use Rattle.fdt_overlay.specs.Job.{IsOutput, IsAskedJob};
ghost use Rattle.fdt_overlay.specs.PrivateMeant.{meant};
ghost use Rattle.fdt_overlay.specs.PrivateSteps.{IsApplied, AreApplied, IsFound, kept_made};

use crate::lines::make_fault_message;
use crate::words::Asked;
use fdt_read::Flat;
use fdt_tree::Tree;
use outside::{Files, Status};
use overlaid_trees::{OverlayFault, apply};
use run_steps::{Build, Stop};
use std::alloc::Global;
use tree_files::{one_output, read_tree, write_tree};

/// A tree with the overlay of a file applied.
fn apply_tree(alloc: Global, name: &str, base: &Tree, overlay: &Tree) -> Result<Tree, Stop>
    ensures applied { IfOk result (λ made. applied base.now.tree overlay.now.tree ≡ Ok made.tree) }
    ensures stopped { IfErr result (λ stop. IsOwnDue (AfterApplied name.now base.now.tree overlay.now.tree nothing) stop) }
{
    match apply(alloc, base, overlay) {
        Ok(made) => Ok(made),
        Err(OverlayFault::Memory) => Err(Stop::Memory),
        Err(fault) => Err(Stop::Because(Status::Refused, make_fault_message(alloc, name, &fault)?)),
    }
}

/// A tree with the overlay of a file read and applied.
fn apply_file<F: Files>(alloc: Global, name: &str, base: &Tree, files: &mut F) -> Result<Tree, Stop>
    ensures applied { IfOk result (λ made. IsApplied (F.held files.old) name.now base.now.tree made.tree) }
    ensures stopped { IfErr result (StopsFor F.counts files.old files.new (AfterOverlay (F.held files.old) name.now base.now.tree nothing)) }
    ensures only_read { Reads F.held F.counts files.old files.new }
{
    let overlay = read_tree(alloc, name, files)?;
    apply_tree(alloc, name, base, &overlay.flat.tree)
}

/// A tree with the overlays of files read and applied in their turn.
fn apply_files<F: Files>(
    alloc: Global,
    names: &[String],
    base: Tree,
    files: &mut F,
) -> Result<Tree, Stop>
    ensures applied { IfOk result (λ made. AreApplied (F.held files.old) (map string_bytes names.now) base.tree made.tree) }
    ensures stopped { IfErr result (StopsFor F.counts files.old files.new (AfterOverlays (F.held files.old) (map string_bytes names.now) base.tree nothing)) }
    ensures kept { F.held files.new ≡ F.held files.old }
{
    let mut tree = base;
    for name in names {
        match apply_file(alloc, name.as_str(), &tree, files) {
            Ok(made) => tree = made,
            Err(stop) => return Err(stop),
        }
    }
    Ok(tree)
}

/// The base that is asked for with its overlays applied, and with its reservations and the processor that boots.
fn make_tree<F: Files>(alloc: Global, asked: &Asked<'_>, files: &mut F) -> Result<Flat, Stop>
    ensures made { IfOk result (λ flat. IsFound (F.held files.old) (meant asked.now) (kept_made flat)) }
    ensures stopped { IfErr result (StopsFor F.counts files.old files.new (AfterAll (F.held files.old) (meant asked.now) nothing)) }
    ensures kept { F.held files.new ≡ F.held files.old }
{
    let base = read_tree(alloc, asked.base, files)?;
    let flat = base.flat;
    let tree = apply_files(alloc, asked.overlays, flat.tree, files)?;
    Ok(Flat {
        tree,
        reserves: flat.reserves,
        boot: flat.boot,
    })
}

/// What is written of a tree.
fn build_output(alloc: Global, out: &str, flat: &Flat) -> Result<Build, Stop>
    requires { IsTrue (list_all (λ reserve. not (is_last_pair reserve)) flat.now.reserves) }
    ensures built { IfOk result (λ build. IsOutput out.now (kept_made flat.now) (outcome_of build)) }
    ensures stopped { IfErr result (λ stop. IsOwnDue (IsOutput out.now (kept_made flat.now)) stop) }
{
    let bytes = write_tree(alloc, out, &flat.tree, flat.reserves.as_slice(), flat.boot)?;
    Ok(one_output(alloc, out, bytes, None)?)
}

/// Reads the files and makes all that is to be written.
pub(crate) fn prepare<F: Files>(
    alloc: Global,
    asked: &Asked<'_>,
    files: &mut F,
) -> Result<Build, Stop>
    ensures built { IfOk result (λ build. IsAskedJob (F.held files.old) (meant asked.now) (outcome_of build)) }
    ensures stopped { IfErr result (StopsFor F.counts files.old files.new (IsAskedJob (F.held files.old) (meant asked.now))) }
    ensures kept { F.held files.new ≡ F.held files.old }
{
    let flat = make_tree(alloc, asked, files)?;
    build_output(alloc, asked.out, &flat)
}

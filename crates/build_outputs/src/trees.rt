//! The trees of guests are written.
ghost use Rattle.std.specs.Prelude.{◌≡◌, ◌≤◌, All, IfErr, IfOk, None, OnOk, length, []};
ghost use Rattle.std.specs.Option.{option_copied};
ghost use Rattle.fdt_write.specs.Flattened.{flattened, length_limit};
ghost use Rattle.fdt_read.specs.Spells.{Spells};
ghost use Rattle.guest_fdt.specs.Bounds.{IsBounded};
ghost use Rattle.guest_fdt.specs.GuestTree.{guest_tree};
ghost use Rattle.run_steps.specs.Names.{joined};
ghost use Rattle.run_steps.specs.Outputs.{file_of};
ghost use Rattle.domain_plan.specs.Descriptions.{partial_at, trees_in};
ghost use Rattle.build_outputs.specs.Lengths.{refused_trees};
ghost use Rattle.build_outputs.specs.Made.{files_in};
ghost use Rattle.build_outputs.specs.Outputs.{in_folder, tree_output, tree_outputs};
ghost use Rattle.build_outputs.specs.PrivateSpelled.{AreSpelled, IsSpelled};
ghost use Rattle.build_outputs.specs.PrivateTooLong.{IsFirstLengthStop, IsLengthStop};

use crate::lengths::write_tree;
use crate::names::make_tree_name;
use domain_plan::GuestPlan;
use fdt_tree::Tree;
use fdt_write::laws::written_is_read;
use guest_fdt::build_tree;
use run_steps::{Output, Stop, join};
use std::alloc::{AllocError, Global};
use texts::{Bytes, List};

/// The trees of guests as files, each with the guest's partial tree, where that was read; or the stop at the first that is
/// too long to be written.
pub(crate) fn write_trees(
    alloc: Global,
    folder: Option<&str>,
    guests: &[GuestPlan],
    partials: &[Option<Tree>],
) -> Result<List<Output>, Stop>
    requires { All IsBounded guests.now }
    ensures written { IfOk result (λ trees. files_in trees ≡ in_folder (option_copied folder.entry) (tree_outputs (trees_in partials.now) 0 guests.now)) }
    ensures spelled { OnOk result (AreSpelled (trees_in partials.now) guests.now) }
    ensures fit { OnOk result (refused_trees (tree_outputs (trees_in partials.now) 0 guests.now) ≡ None) }
    ensures stopped { IfErr result (λ stop. IsFirstLengthStop (tree_outputs (trees_in partials.now) 0 guests.now) stop) }
{
    let mut trees = List::new(alloc);
    for (number, guest) in guests.iter().enumerate() {
        match write_guest(alloc, folder, guest, partials, number) {
            Ok(tree) => trees.push(tree)?,
            Err(stop) => return Err(stop),
        }
    }
    Ok(trees)
}

/// The tree of the guest with this number as a file; or the stop at its length.
fn write_guest(
    alloc: Global,
    folder: Option<&str>,
    guest: &GuestPlan,
    partials: &[Option<Tree>],
    number: usize,
) -> Result<Output, Stop>
    requires { IsBounded guest.now }
    ensures written { IfOk result (λ tree. file_of tree ≡ (joined (option_copied folder.entry) (tree_output guest.now (partial_at (trees_in partials.now) number)).0, (tree_output guest.now (partial_at (trees_in partials.now) number)).1)) }
    ensures spelled { OnOk result (IsSpelled guest.now (partial_at (trees_in partials.now) number)) }
    ensures fits { OnOk result (length (tree_output guest.now (partial_at (trees_in partials.now) number)).1 ≤ length_limit) }
    ensures stopped { IfErr result (λ stop. IsLengthStop (tree_output guest.now (partial_at (trees_in partials.now) number)) stop) }
{
    let tree = build_guest(alloc, guest, partials, number)?;
    let name = make_tree_name(alloc, guest.number)?;
    let bytes = write_guest_tree(alloc, name.as_str(), &tree)?;
    let name = join(alloc, folder, name.as_str())?;
    Ok(Output { name, bytes })
}

/// A guest's tree as it is written under a name; or the stop at its length.
fn write_guest_tree(alloc: Global, name: &str, tree: &Tree) -> Result<Bytes, Stop>
    ensures written { IfOk result (λ bytes. bytes ≡ flattened [] 0 tree.now.tree) }
    ensures spelled { OnOk result (Spells (flattened [] 0 tree.now.tree) [] 0 tree.now.tree) }
    ensures fits { OnOk result (length (flattened [] 0 tree.now.tree) ≤ length_limit) }
    ensures stopped { IfErr result (λ stop. IsLengthStop (name.now, flattened [] 0 tree.now.tree) stop) }
{
    tree.kept();
    written_is_read();
    write_tree(alloc, name, tree, &[], 0)
}

/// The tree of the guest with this number.
fn build_guest(
    alloc: Global,
    guest: &GuestPlan,
    partials: &[Option<Tree>],
    number: usize,
) -> Result<Tree, AllocError>
    requires { IsBounded guest.now }
    ensures { IfOk result (λ tree. tree.tree ≡ guest_tree guest.now (partial_at (trees_in partials.now) number)) }
{
    match partials.get(number) {
        Some(Some(partial)) => build_tree(alloc, guest, Some(partial)),
        _ => build_tree(alloc, guest, None),
    }
}

// An overlay applied to a base.
ghost use Rattle.std.specs.Prelude.{◌≡◌, ◌⊎◌, IfOk, IfErr, Ok, Err};
ghost use Rattle.overlaid_trees.specs.Applied.{applied};

use crate::fault::OverlayFault;
use crate::fragments::merge;
use crate::resolve::resolve;
use crate::shift::shift;
use fdt_tree::Tree;
use indexed_tree::IndexedTree;
use std::alloc::Global;

/// The base with the overlay applied, or the first fault of the overlay, in this order: its phandles are moved above those
/// of the base, its labels resolved, its fragments merged. Neither tree is changed.
pub fn apply(alloc: Global, base: &Tree, overlay: &Tree) -> Result<Tree, OverlayFault>
    ensures ok { IfOk result (λ made. applied base.now.tree overlay.now.tree ≡ Ok made.tree) }
    ensures refused { IfErr result (λ fault. (fault ≡ OverlayFault.Memory) ⊎ (applied base.now.tree overlay.now.tree ≡ Err fault)) }
{
    let above = shift(alloc, base, overlay)?;
    let indexed = IndexedTree::copied(alloc, base)?;
    let known = resolve(alloc, &indexed, &above)?;
    merge(alloc, indexed, &known)
}

// The fragments of an overlay are merged into a base.
ghost use Rattle.std.specs.Prelude.{◌≡◌, ◌⊎◌, ◌<◌, IfOk, IfErr, OnOk, Ok, Err, codes, length};
ghost use Rattle.fdt_tree.specs.Document.{name_of, properties_of, children_of};
ghost use Rattle.overlaid_trees.specs.Turns.{each};
ghost use Rattle.overlaid_trees.specs.Merge.{with_fragment, fragments, merged};
ghost use Rattle.overlaid_trees.specs.PrivateGrown.{one_tree, fragment_at};

use crate::children::child_named;
use crate::depths::fits;
use crate::fault::OverlayFault;
use crate::held::held;
use crate::merge::merge_node;
use crate::targets::find_target;
use fdt_tree::{NodeId, Tree};
use indexed_tree::IndexedTree;
use std::alloc::Global;

/// The deepest that a node may stand.
const DEPTH_LIMIT: usize = 32;

/// Merges what a fragment holds into its target.
fn merge_fragment(
    alloc: Global,
    tree: &mut IndexedTree,
    overlay: &Tree,
    fragment: NodeId,
    content: NodeId,
) -> Result<(), OverlayFault>
    requires live { fragment < length overlay.now.places }
    requires content_live { content < length overlay.now.places }
    ensures ok { OnOk result (with_fragment tree.old.tree (fragment_at overlay.now fragment content) ≡ Ok tree.new.tree) }
    ensures refused { IfErr result (λ fault. (fault ≡ OverlayFault.Memory) ⊎ (with_fragment tree.old.tree (fragment_at overlay.now fragment content) ≡ Err fault)) }
{
    let Some(target) = find_target(tree, overlay, fragment) else {
        return Err(OverlayFault::NoTarget(held(alloc, overlay.name(fragment))?));
    };
    if !fits(overlay, content, DEPTH_LIMIT - tree.depth(target)) {
        return Err(OverlayFault::Deep(held(alloc, overlay.name(fragment))?));
    }
    merge_node(tree, target, overlay, content)?;
    Ok(())
}

/// Merges a child of an overlay's root, where it is a fragment.
fn merge_child(
    alloc: Global,
    tree: &mut IndexedTree,
    overlay: &Tree,
    child: NodeId,
) -> Result<(), OverlayFault>
    requires { child < length overlay.now.places }
    ensures ok { OnOk result (each with_fragment tree.old.tree (fragments (one_tree (name_of overlay.now child) (properties_of overlay.now child) (children_of overlay.now child))) ≡ Ok tree.new.tree) }
    ensures refused { IfErr result (λ fault. (fault ≡ OverlayFault.Memory) ⊎ (each with_fragment tree.old.tree (fragments (one_tree (name_of overlay.now child) (properties_of overlay.now child) (children_of overlay.now child))) ≡ Err fault)) }
{
    overlay.numbering();
    match child_named(overlay, child, b"__overlay__") {
        None => Ok(()),
        Some(content) => merge_fragment(alloc, tree, overlay, child, content),
    }
}

/// A base with all fragments of an overlay merged in, in their order, or the first fragment's fault.
pub(crate) fn merge(alloc: Global, base: IndexedTree, overlay: &Tree) -> Result<Tree, OverlayFault>
    ensures ok { IfOk result (λ made. merged base.tree overlay.now.tree ≡ Ok made.tree) }
    ensures refused { IfErr result (λ fault. (fault ≡ OverlayFault.Memory) ⊎ (merged base.tree overlay.now.tree ≡ Err fault)) }
{
    overlay.numbering();
    let mut made = base;
    let mut next = overlay.first_child(overlay.root());
    while let Some(child) = next {
        next = overlay.next_sibling(child);
        merge_child(alloc, &mut made, overlay, child)?;
    }
    Ok(made.into_tree()?)
}

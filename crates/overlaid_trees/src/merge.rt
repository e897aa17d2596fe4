// The nodes of an overlay are merged into those of a tree.
ghost use Rattle.std.specs.Prelude.{◌≡◌, ◌<◌, OnOk, IfOk, IsTrue, length};
ghost use Rattle.fdt_tree.specs.Tree.{is_node_name};
ghost use Rattle.fdt_tree.specs.Document.{place_of, properties_of, children_of, with_properties};
ghost use Rattle.overlaid_trees.specs.Merge.{set_all};
ghost use Rattle.overlaid_trees.specs.PrivateGrown.{IsOpened, Changes, merging, merging_all};

use fdt_tree::{NodeId, Tree};
use indexed_tree::{IndexedNode, IndexedTree};
use std::alloc::AllocError;

/// The first child of a node that has this name, which is added last where there is none.
fn open_child(
    tree: &mut IndexedTree,
    node: IndexedNode,
    name: &[u8],
) -> Result<IndexedNode, AllocError>
    requires live { node < length tree.old.places }
    requires node_name { IsTrue (is_node_name name.now) }
    ensures { IfOk result (IsOpened tree.old tree.new node name.now) }
{
    match tree.child_named(node, name) {
        Some(child) => Ok(child),
        None => tree.add_node(node, name),
    }
}

/// Sets the properties of a node of an overlay at a node, one after the other.
fn set_properties(
    tree: &mut IndexedTree,
    target: IndexedNode,
    overlay: &Tree,
    node: NodeId,
) -> Result<(), AllocError>
    requires target_live { target < length tree.old.places }
    requires live { node < length overlay.now.places }
    ensures { OnOk result (tree.new ≡ with_properties tree.old (place_of tree.old target) (set_all (properties_of overlay.now node))) }
{
    overlay.names();
    for index in 0..overlay.prop_count(node) {
        let (name, value) = overlay.prop_at(node, index);
        tree.set_prop(target, name, value)?;
    }
    Ok(())
}

/// Merges what is below a node of an overlay into a node, each child into the first of its name.
fn merge_children(
    tree: &mut IndexedTree,
    target: IndexedNode,
    overlay: &Tree,
    node: NodeId,
) -> Result<(), AllocError>
    requires target_live { target < length tree.old.places }
    requires live { node < length overlay.now.places }
    ensures { OnOk result (Changes tree.old tree.new target (merging (children_of overlay.now node))) }
{
    overlay.numbering();
    overlay.names();
    let mut next = overlay.first_child(node);
    while let Some(child) = next {
        tree.numbering();
        let into = open_child(tree, target, overlay.name(child))?;
        set_properties(tree, into, overlay, child)?;
        merge_children(tree, into, overlay, child)?;
        next = overlay.next_sibling(child);
    }
    Ok(())
}

/// Merges a node of an overlay into a node, with all below it.
pub(crate) fn merge_node(
    tree: &mut IndexedTree,
    target: IndexedNode,
    overlay: &Tree,
    node: NodeId,
) -> Result<(), AllocError>
    requires target_live { target < length tree.old.places }
    requires live { node < length overlay.now.places }
    ensures { OnOk result (Changes tree.old tree.new target (merging_all (properties_of overlay.now node) (children_of overlay.now node))) }
{
    set_properties(tree, target, overlay, node)?;
    merge_children(tree, target, overlay, node)
}

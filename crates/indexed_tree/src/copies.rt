// Copies of trees.
ghost use Rattle.std.specs.Prelude.{◌≡◌, ◌≢◌, ◌<◌, [], length, OnOk, IfOk};
ghost use Rattle.fdt_tree.specs.Document.{IsNamed, place_of, name_of, properties_of, children_of, with_node};
ghost use Rattle.tree_parts.specs.Grown.{Grows, with_more};

use crate::node::IndexedNode;
use crate::tree::IndexedTree;
use fdt_tree::{NodeId, Tree};
use std::alloc::{AllocError, Global};

/// Gives a node the properties of a node of another tree.
fn copy_properties(
    tree: &mut IndexedTree,
    copy: IndexedNode,
    source: &Tree,
    node: NodeId,
) -> Result<(), AllocError>
    requires copy_live { copy < length tree.old.places }
    requires live { node < length source.now.places }
    requires named { IsNamed source.now }
    ensures { OnOk result (tree.new ≡ with_more tree.old copy (properties_of source.now node)) }
{
    for index in 0..source.prop_count(node) {
        let (name, value) = source.prop_at(node, index);
        tree.add_prop(copy, name, value)?;
    }
    Ok(())
}

/// Copies a node that is not the root, without the nodes below it, as a last child.
fn copy_node(
    tree: &mut IndexedTree,
    parent: IndexedNode,
    source: &Tree,
    node: NodeId,
) -> Result<IndexedNode, AllocError>
    requires parent_live { parent < length tree.old.places }
    requires live { node < length source.now.places }
    requires below { place_of source.now node ≢ [] }
    requires named { IsNamed source.now }
    ensures ok { OnOk result (tree.new ≡ with_node tree.old (place_of tree.old parent) (name_of source.now node) (properties_of source.now node)) }
    ensures newest { IfOk result (λ copy. copy ≡ length tree.old.places) }
{
    tree.numbering();
    let copy = tree.add_node(parent, source.name(node))?;
    copy_properties(tree, copy, source, node)?;
    Ok(copy)
}

/// Copies what is below a node, as last children.
fn copy_children(
    tree: &mut IndexedTree,
    parent: IndexedNode,
    source: &Tree,
    node: NodeId,
) -> Result<(), AllocError>
    requires parent_live { parent < length tree.old.places }
    requires live { node < length source.now.places }
    requires named { IsNamed source.now }
    ensures { OnOk result (Grows tree.old tree.new parent (children_of source.now node)) }
{
    source.numbering();
    let mut next = source.first_child(node);
    while let Some(child) = next {
        tree.numbering();
        let copy = copy_node(tree, parent, source, child)?;
        copy_children(tree, copy, source, child)?;
        next = source.next_sibling(child);
    }
    Ok(())
}

/// A copy of a whole tree.
pub(crate) fn copy(alloc: Global, source: &Tree) -> Result<IndexedTree, AllocError>
    ensures { IfOk result (λ made. made.tree ≡ source.now.tree) }
{
    source.names();
    source.kept();
    let from = source.root();
    let mut tree = IndexedTree::new(alloc)?;
    let root = tree.root();
    copy_properties(&mut tree, root, source, from)?;
    copy_children(&mut tree, root, source, from)?;
    Ok(tree)
}

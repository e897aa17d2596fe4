// Copies of trees with their phandles moved up.
ghost use Rattle.std.specs.Prelude.{◌≡◌, ◌≢◌, ◌<◌, ◌≤◌, ◌+◌, ◌∷◌, [], IsTrue, length, OnOk, IfOk, codes, option_map};
ghost use Rattle.std.specs.Int.{w32, to_be_bytes};
ghost use Rattle.fdt_tree.specs.Tree.{is_property_name};
ghost use Rattle.fdt_tree.specs.Document.{IsNamed, place_of, name_of, properties_of, children_of, with_node};
ghost use Rattle.fdt_tree.specs.Phandles.{highest_phandle};
ghost use Rattle.tree_parts.specs.Grown.{Grows, with_more};
ghost use Rattle.overlaid_trees.specs.Words.{last_phandle};
ghost use Rattle.overlaid_trees.specs.Shift.{moved_properties, moved_in, moved_tree};
ghost use Rattle.overlaid_trees.specs.PrivateCopies.{placed, left_over, with_first, moved_phandle, CanMove};

use fdt_nodes::u32_at;
use fdt_tree::{NodeId, Tree};
use indexed_tree::IndexedTree;
use std::alloc::{AllocError, Global};
use tree_parts::add_empty;

/// The phandle of a copy, where the node has one.
fn moved_phandle(source: &Tree, node: NodeId, by: u32) -> Option<u32>
    requires live { node < length source.now.places }
    requires can_move { CanMove source.now by }
    ensures { result ≡ moved_phandle by (properties_of source.now node) }
{
    match u32_at(source, node, b"phandle") {
        None => None,
        Some(phandle) => Some(phandle + by),
    }
}

/// Adds a property to a copy, with another number where it is the phandle that is to be moved; the answer is the number that
/// is still to be given.
fn add_copied(
    tree: &mut Tree,
    copy: NodeId,
    name: &[u8],
    value: &[u8],
    phandle: Option<u32>,
) -> Result<Option<u32>, AllocError>
    requires live { copy < length tree.old.places }
    requires property_name { IsTrue (is_property_name name.now) }
    ensures added { OnOk result (tree.new ≡ with_more tree.old copy (placed (codes "phandle") (option_map (to_be_bytes w32) phandle) (name.now, value.now) ∷ [])) }
    ensures left { IfOk result (λ left. option_map (to_be_bytes w32) left ≡ left_over (codes "phandle") (option_map (to_be_bytes w32) phandle) (name.now, value.now)) }
{
    match phandle {
        None => {
            tree.add_prop(copy, name, value)?;
            Ok(None)
        }
        Some(number) => {
            if name == b"phandle".as_slice() {
                tree.add_prop(copy, b"phandle", &number.to_be_bytes())?;
                Ok(None)
            } else {
                tree.add_prop(copy, name, value)?;
                Ok(phandle)
            }
        }
    }
}

/// Gives a node the properties of another, the first phandle with another number where one is given.
fn copy_properties(
    tree: &mut Tree,
    copy: NodeId,
    source: &Tree,
    node: NodeId,
    phandle: Option<u32>,
) -> Result<(), AllocError>
    requires copy_live { copy < length tree.old.places }
    requires live { node < length source.now.places }
    requires named { IsNamed source.now }
    ensures { OnOk result (tree.new ≡ with_more tree.old copy (with_first (codes "phandle") (option_map (to_be_bytes w32) phandle) (properties_of source.now node))) }
{
    let mut left = phandle;
    for index in 0..source.prop_count(node) {
        let (name, value) = source.prop_at(node, index);
        left = add_copied(tree, copy, name, value, left)?;
    }
    Ok(())
}

/// Copies a node that is not the root, without the nodes below it, as a last child.
fn copy_node(
    tree: &mut Tree,
    parent: NodeId,
    source: &Tree,
    node: NodeId,
    by: u32,
) -> Result<NodeId, AllocError>
    requires parent_live { parent < length tree.old.places }
    requires live { node < length source.now.places }
    requires below { place_of source.now node ≢ [] }
    requires named { IsNamed source.now }
    requires can_move { CanMove source.now by }
    ensures ok { OnOk result (tree.new ≡ with_node tree.old (place_of tree.old parent) (name_of source.now node) (moved_properties by (properties_of source.now node))) }
    ensures newest { IfOk result (λ copy. copy ≡ length tree.old.places) }
{
    tree.numbering();
    let copy = add_empty(tree, parent, source.name(node))?;
    copy_properties(tree, copy, source, node, moved_phandle(source, node, by))?;
    Ok(copy)
}

/// Copies what is below a node, as last children.
fn copy_children(
    tree: &mut Tree,
    parent: NodeId,
    source: &Tree,
    node: NodeId,
    by: u32,
) -> Result<(), AllocError>
    requires parent_live { parent < length tree.old.places }
    requires live { node < length source.now.places }
    requires named { IsNamed source.now }
    requires can_move { CanMove source.now by }
    ensures { OnOk result (Grows tree.old tree.new parent (moved_in by (children_of source.now node))) }
{
    source.numbering();
    let mut next = source.first_child(node);
    while let Some(child) = next {
        tree.numbering();
        let copy = copy_node(tree, parent, source, child, by)?;
        copy_children(tree, copy, source, child, by)?;
        next = source.next_sibling(child);
    }
    Ok(())
}

/// A copy of a whole tree.
fn copy_whole(alloc: Global, source: &Tree, by: u32) -> Result<Tree, AllocError>
    requires { CanMove source.now by }
    ensures { IfOk result (λ made. made.tree ≡ moved_tree by source.now.tree) }
{
    source.names();
    source.kept();
    let from = source.root();
    let mut tree = Tree::new(alloc)?;
    let root = tree.root();
    copy_properties(
        &mut tree,
        root,
        source,
        from,
        moved_phandle(source, from, by),
    )?;
    copy_children(&mut tree, root, source, from, by)?;
    Ok(tree)
}

/// A copy of a tree with all its phandles moved up by a number, after which the highest is still a phandle.
pub(crate) fn copy_moved(alloc: Global, by: u32, source: &Tree) -> Result<IndexedTree, AllocError>
    requires { highest_phandle source.now.tree + by ≤ last_phandle }
    ensures { IfOk result (λ made. made.tree ≡ moved_tree by source.now.tree) }
{
    source.numbering();
    let made = copy_whole(alloc, source, by)?;
    IndexedTree::copied(alloc, &made)
}

//! Nodes that are added to a tree.
ghost use Rattle.std.specs.Prelude.{◌≡◌, ◌<◌, ◌∷◌, [], length, OnOk, OnErr, IfOk, IsTrue};
ghost use Rattle.fdt_tree.specs.Tree.{is_node_name};
ghost use Rattle.fdt_tree.specs.Document.{place_of, with_child, with_node};
ghost use Rattle.tree_parts.specs.Nodes.{trees_of, leaf};
ghost use Rattle.tree_parts.specs.Grown.{Grows};
ghost use Rattle.fdt_tree.specs.Document.{have_names};
ghost use Rattle.tree_parts.specs.Rows.{properties};

use crate::rows::{Row, add_rows};
use fdt_tree::{NodeId, Tree};
use std::alloc::{AllocError, Global};

/// Adds a last child without properties. After want of memory the tree is as it was; that is answered, too, where the
/// parent stands at the depth limit of 32.
pub fn add_empty(tree: &mut Tree, parent: NodeId, name: &[u8]) -> Result<NodeId, AllocError>
    requires live { parent < length tree.old.places }
    requires node_name { IsTrue (is_node_name name.now) }
    ensures ok { OnOk result (tree.new ≡ with_child tree.old (place_of tree.old parent) name.now) }
    ensures newest { IfOk result (λ node. node ≡ length tree.old.places) }
    ensures longer { IfOk result (λ node. node < length tree.new.places) }
    ensures same { OnErr result (tree.new ≡ tree.old) }
{
    match tree.add_node(parent, name) {
        Ok(node) => Ok(node),
        Err(_) => Err(AllocError),
    }
}

/// Adds a last child with these properties, which may be given children. After want of memory the tree may have the child
/// with some of them.
pub fn add_open(
    alloc: Global,
    tree: &mut Tree,
    parent: NodeId,
    name: &[u8],
    rows: &[Row<'_>],
) -> Result<NodeId, AllocError>
    requires live { parent < length tree.old.places }
    requires node_name { IsTrue (is_node_name name.now) }
    requires named { IsTrue (have_names (properties rows.now)) }
    ensures ok { OnOk result (tree.new ≡ with_node tree.old (place_of tree.old parent) name.now (properties rows.now)) }
    ensures newest { IfOk result (λ node. node ≡ length tree.old.places) }
    ensures longer { IfOk result (λ node. node < length tree.new.places) }
{
    tree.numbering();
    let node = add_empty(tree, parent, name)?;
    add_rows(alloc, tree, node, rows)?;
    Ok(node)
}

/// Adds a last child with these properties and no children. After want of memory the tree may have the child with some of
/// them.
pub fn add_leaf(
    alloc: Global,
    tree: &mut Tree,
    parent: NodeId,
    name: &[u8],
    rows: &[Row<'_>],
) -> Result<(), AllocError>
    requires live { parent < length tree.old.places }
    requires node_name { IsTrue (is_node_name name.now) }
    requires named { IsTrue (have_names (properties rows.now)) }
    ensures { OnOk result (Grows tree.old tree.new parent (trees_of (leaf name.now (properties rows.now) ∷ []))) }
{
    add_open(alloc, tree, parent, name, rows)?;
    Ok(())
}

// Trees made of entries.
ghost use Rattle.std.specs.Prelude.{◌≡◌, ◌≢◌, ◌<◌, length, OnOk, IfOk, IsTrue};
ghost use Rattle.fdt_tree.specs.Tree.{is_node_name};
ghost use Rattle.fdt_tree.specs.Document.{have_names, place_of, with_node};
ghost use Rattle.tree_parts.specs.Grown.{with_more};
ghost use Rattle.indexed_tree.specs.PrivateArena.{held, IsHeld};

use crate::entry::Entry;
use crate::properties::Properties;
use fdt_tree::{NodeId, Tree};
use std::alloc::{AllocError, Global};
use tree_parts::add_empty;

/// Gives a node properties.
fn give(tree: &mut Tree, node: NodeId, properties: &Properties) -> Result<(), AllocError>
    requires live { node < length tree.old.places }
    requires named { IsTrue (have_names properties.now) }
    ensures { OnOk result (tree.new ≡ with_more tree.old node properties.now) }
{
    for index in 0..properties.len() {
        let (name, value) = properties.at(index);
        tree.add_prop(node, name, value)?;
    }
    Ok(())
}

/// Adds the node of an entry as a last child of its parent.
fn add_entry(tree: &mut Tree, parent: NodeId, entry: &Entry) -> Result<NodeId, AllocError>
    requires live { parent < length tree.old.places }
    requires node_name { IsTrue (is_node_name entry.now.name) }
    requires named { IsTrue (have_names entry.now.properties) }
    ensures ok { OnOk result (tree.new ≡ with_node tree.old (place_of tree.old parent) entry.now.name entry.now.properties) }
    ensures newest { IfOk result (λ node. node ≡ length tree.old.places) }
{
    tree.numbering();
    let node = add_empty(tree, parent, entry.name.as_slice())?;
    give(tree, node, &entry.properties)?;
    Ok(node)
}

/// The tree that entries add up to.
pub(crate) fn tree_of(alloc: Global, entries: &[Entry]) -> Result<Tree, AllocError>
    requires { IsHeld (held entries.now) entries.now }
    ensures { IfOk result (λ made. made ≡ held entries.now) }
{
    let mut tree = Tree::new(alloc)?;
    let mut nodes = Vec::new(alloc);
    let root = tree.root();
    nodes.push(root)?;
    give(&mut tree, root, &entries[0].properties)?;
    for index in 1..entries.len() {
        let entry = &entries[index];
        let node = add_entry(&mut tree, nodes[entry.parent], entry)?;
        nodes.push(node)?;
    }
    Ok(tree)
}

// The nodes of a tree: those below a node, and the one that a path finds.
ghost use Rattle.std.specs.Prelude.{◌≡◌, ◌<◌, ◌++◌, All, OnOk, length, map, IfOk, IfSome, option_map};
ghost use Rattle.fdt_nodes.specs.Nodes.{children, descendants, nodes_of, node_found};
ghost use Rattle.fdt_nodes.specs.Held.{node_of, Are};

use fdt_tree::{NodeId, Tree, Walk};
use std::alloc::{AllocError, Global};
use texts::List;

/// The children of a node, in order.
pub fn children(alloc: Global, tree: &Tree, node: NodeId) -> Result<List<NodeId>, AllocError>
    requires { node < length tree.now.places }
    ensures { IfOk result (λ nodes. Are tree.now (children (node_of tree.now node)) nodes) }
{
    tree.numbering();
    let mut children = List::new(alloc);
    let mut next = tree.first_child(node);
    while let Some(child) = next {
        children.push(child)?;
        next = tree.next_sibling(child);
    }
    Ok(children)
}

// Adds all nodes below a node, in document order.
fn append_below(tree: &Tree, node: NodeId, found: &mut List<NodeId>) -> Result<(), AllocError>
    requires { node < length tree.now.places }
    ensures nodes { OnOk result (map (node_of tree.now) found.new ≡ map (node_of tree.now) found.old ++ descendants (node_of tree.now node)) }
    ensures live { All (λ n. n < length tree.now.places) found.old → OnOk result (All (λ n. n < length tree.now.places) found.new) }
{
    tree.numbering();
    for visit in Walk::below(tree, node) {
        if let Some(child) = visit.entered() {
            found.push(child)?;
        }
    }
    Ok(())
}

/// All nodes below a node, in document order.
pub fn descendants(alloc: Global, tree: &Tree, node: NodeId) -> Result<List<NodeId>, AllocError>
    requires { node < length tree.now.places }
    ensures { IfOk result (λ nodes. Are tree.now (descendants (node_of tree.now node)) nodes) }
{
    let mut below = List::new(alloc);
    append_below(tree, node, &mut below)?;
    Ok(below)
}

/// All nodes of a tree, in document order.
pub fn nodes(alloc: Global, tree: &Tree) -> Result<List<NodeId>, AllocError>
    ensures { IfOk result (λ nodes. Are tree.now (nodes_of tree.now.tree) nodes) }
{
    let mut all = List::new(alloc);
    let root = tree.root();
    all.push(root)?;
    append_below(tree, root, &mut all)?;
    Ok(all)
}

/// The node that a path finds (Devicetree Specification 0.4, 2.2.3), as `Tree::find` does.
pub fn found(tree: &Tree, path: &[u8]) -> Option<NodeId>
    ensures live { IfSome result (λ node. node < length tree.now.places) }
    ensures node { option_map (λ node. node_of tree.now node) result ≡ node_found tree.now.tree path.now }
{
    tree.find(path)
}

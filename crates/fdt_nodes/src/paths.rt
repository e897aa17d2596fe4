// The path of a node.
ghost use Rattle.std.specs.Prelude.{◌≡◌, ◌<◌, ◌++◌, length, IfOk, OnOk};
ghost use Rattle.fdt_nodes.specs.Nodes.{shown};
ghost use Rattle.fdt_nodes.specs.Held.{node_of};
ghost use Rattle.fdt_nodes.specs.NodeItems.{item_of};

use described::{Item, Part};
use fdt_tree::{NodeId, Tree};
use std::alloc::{AllocError, Global};
use texts::Bytes;

// Adds the path of a node: nothing for the root, and for others that of the node above, `/`, and the name.
fn append_path(tree: &Tree, node: NodeId, path: &mut Bytes) -> Result<(), AllocError>
    requires { node < length tree.now.places }
    ensures { OnOk result (path.new ≡ path.old ++ (node_of tree.now node).path) }
{
    tree.numbering();
    match tree.parent(node) {
        None => Ok(()),
        Some(above) => {
            append_path(tree, above, path)?;
            path.append(b"/")?;
            path.append(tree.name(node))?;
            Ok(())
        }
    }
}

/// The path of a node (Devicetree Specification 0.4, 2.2.3): `/` for the root, `/a/b` below it. A copy of it takes no
/// memory.
pub fn path(alloc: Global, tree: &Tree, node: NodeId) -> Result<Bytes, AllocError>
    requires { node < length tree.now.places }
    ensures { IfOk result (λ path. path ≡ shown (node_of tree.now node).path) }
{
    let mut path = Bytes::new(alloc);
    append_path(tree, node, &mut path)?;
    if path.as_slice().is_empty() {
        path.append(b"/")?;
    }
    path.into_shared()
}

/// The item that a node describes: of this part, with this number among those of its part and node. A copy of it takes no
/// memory, so the items of one node are copies of its first with other numbers.
pub fn item_of(
    alloc: Global,
    tree: &Tree,
    part: Part,
    node: NodeId,
    index: u64,
) -> Result<Item, AllocError>
    requires { node < length tree.now.places }
    ensures { IfOk result (λ item. item ≡ item_of part (node_of tree.now node) index) }
{
    let path = path(alloc, tree, node)?;
    Ok(Item { part, path, index })
}

/// The item of the same part and node that has this number among them: a copy of the first. Of a shared path, as
/// `item_of` makes it, it takes no memory.
pub fn with_index(alloc: Global, first: &Item, index: u64) -> Result<Item, AllocError>
    ensures { IfOk result (λ item. item ≡ record first.now { index = index }) }
{
    Ok(Item {
        part: first.part,
        path: first.path.copy(alloc)?,
        index,
    })
}

// The nodes of a domain, and their items.
ghost use Rattle.std.specs.Prelude.{◌≡◌, ◌<◌, ◌++◌, ◌∷◌, [], All, IfOk, OnOk, length, map, filter};
ghost use Rattle.fdt_nodes.specs.Held.{node_of};
ghost use Rattle.static_links.specs.Shared.{has_binding, children_with};

use fdt_nodes::{children, is_compatible};
use fdt_tree::{NodeId, Tree};
use std::alloc::{AllocError, Global};

/// Adds a node, where it has a binding.
fn add_with(
    tree: &Tree,
    node: NodeId,
    binding: &[u8],
    found: &mut Vec<NodeId>,
) -> Result<(), AllocError>
    requires { node < length tree.now.places }
    ensures nodes { OnOk result (map (node_of tree.now) found.new.items ≡ map (node_of tree.now) found.old.items ++ filter (has_binding binding.now) (node_of tree.now node ∷ [])) }
    ensures live { All (λ child. child < length tree.now.places) found.old.items → OnOk result (All (λ child. child < length tree.now.places) found.new.items) }
{
    if is_compatible(tree, node, binding) {
        found.push(node)?;
    }
    Ok(())
}

/// The children of a node that have a binding, in order.
pub(crate) fn children_with(
    alloc: Global,
    tree: &Tree,
    node: NodeId,
    binding: &[u8],
) -> Result<Vec<NodeId>, AllocError>
    requires { node < length tree.now.places }
    ensures nodes { IfOk result (λ found. map (node_of tree.now) found.items ≡ children_with binding.now (node_of tree.now node)) }
    ensures live { IfOk result (λ found. All (λ child. child < length tree.now.places) found.items) }
{
    let all = children(alloc, tree, node)?;
    let mut found = Vec::new(alloc);
    for child in all.as_slice() {
        add_with(tree, *child, binding, &mut found)?;
    }
    Ok(found)
}

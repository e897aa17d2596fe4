// The interrupt controller of a tree.
ghost use Rattle.std.specs.Prelude.{◌≡◌, ◌<◌, length, option_map, IfOk, IfSome};
ghost use Rattle.fdt_nodes.specs.Held.{node_of};
ghost use Rattle.fdt_nodes.specs.Controllers.{is_gic, gic_of};

use crate::below::nodes;
use crate::properties::{has, u32_at};
use fdt_tree::{NodeId, Tree};
use std::alloc::{AllocError, Global};

/// Whether a node is an interrupt controller whose interrupts take three cells, as those of a GIC do (Devicetree
/// Specification 0.4, 2.4.2).
pub fn is_gic(tree: &Tree, node: NodeId) -> bool
    requires { node < length tree.now.places }
    ensures { result ≡ is_gic (node_of tree.now node) }
{
    has(tree, node, b"interrupt-controller") && u32_at(tree, node, b"#interrupt-cells") == Some(3)
}

/// The GIC of a tree: the first in document order.
pub fn gic(alloc: Global, tree: &Tree) -> Result<Option<NodeId>, AllocError>
    ensures gic { IfOk result (λ found. option_map (λ node. node_of tree.now node) found ≡ gic_of tree.now.tree) }
    ensures live { IfOk result (λ found. IfSome found (λ node. node < length tree.now.places)) }
{
    let all = nodes(alloc, tree)?;
    for node in all.as_slice() {
        if is_gic(tree, *node) {
            return Ok(Some(*node));
        }
    }
    Ok(None)
}

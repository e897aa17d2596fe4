// The cells in which the ranges of devices are counted.
ghost use Rattle.std.specs.Prelude.{◌≡◌, ◌<◌, ◌≤◌, length, IfOk, IfSome, OnOk};
ghost use Rattle.fdt_nodes.specs.Held.{node_of};
ghost use Rattle.passthrough_dtb.specs.PrivateCounts.{AreCounts};

use fdt_nodes::own_cells;
use fdt_tree::{NodeId, Tree};
use std::alloc::AllocError;
use std::collections::BTreeMap;

/// The cells that nodes say for their children, of the nodes that were read.
pub(crate) type Counts = BTreeMap<NodeId, Option<(u32, u32)>>;

/// The cells of an address and of a size in a node's own lists, where they are good. The node above is read once, however
/// many children it has.
pub(crate) fn cells_once(
    tree: &Tree,
    node: NodeId,
    counts: &mut Counts,
) -> Result<Option<(u32, u32)>, AllocError>
    requires node { node < length tree.now.places }
    requires counts { AreCounts tree.now counts.old }
    ensures cells { IfOk result (λ cells. (node_of tree.now node).cells ≡ cells) }
    ensures within { IfOk result (λ cells. IfSome cells (λ counts. (1 ≤ counts.0) × (counts.0 ≤ 2) × (1 ≤ counts.1) × (counts.1 ≤ 2))) }
    ensures counts { OnOk result (AreCounts tree.now counts.new) }
{
    let Some(above) = tree.parent(node) else {
        return Ok(None);
    };
    if let Some(cells) = counts.get(&above) {
        return Ok(*cells);
    }
    let cells = cells_of(tree, node);
    counts.insert(above, cells)?;
    Ok(cells)
}

/// The cells of an address and of a size in a node's own lists, where they are good.
fn cells_of(tree: &Tree, node: NodeId) -> Option<(u32, u32)>
    requires { node < length tree.now.places }
    ensures cells { (node_of tree.now node).cells ≡ result }
    ensures within { IfSome result (λ counts. (1 ≤ counts.0) × (counts.0 ≤ 2) × (1 ≤ counts.1) × (counts.1 ≤ 2)) }
{
    match own_cells(tree, node) {
        Ok(cells) => Some(cells),
        Err(_) => None,
    }
}

// The nodes that have a role.
ghost use Rattle.std.specs.Prelude.{◌≡◌, ◌<◌, ◌≤◌, [], IfOk, IfSome, All, length, filter};
ghost use Rattle.fdt_tree.specs.Document.{properties_of};
ghost use Rattle.fdt_tree.specs.Values.{cells_of};
ghost use Rattle.std.specs.Option.{option_map_or};
ghost use Rattle.fdt_nodes.specs.Nodes.{children, node_found};
ghost use Rattle.fdt_nodes.specs.Held.{node_of, Are};
ghost use Rattle.domain_bindings.specs.PrivateRoles.{has_role};

use fdt_nodes::{cell_count, children, found, has, is_compatible, is_memory};
use fdt_tree::{NodeId, Tree};
use std::alloc::{AllocError, Global};
use texts::List;

/// What a node is to the readers.
#[derive(Clone, Copy)]
pub(crate) enum Role {
    /// Memory of the host.
    Memory,
    /// A reserved region that says where it lies.
    Reserved,
    /// A module that a boot loader has loaded.
    Module,
    /// A guest.
    Domain,
    /// An event channel.
    Channel,
}

/// Whether a node is a module: it says so, or of which kind it is.
fn is_module(tree: &Tree, node: NodeId) -> bool
    requires { node < length tree.now.places }
    ensures { result ≡ has_role Role.Module (node_of tree.now node) }
{
    is_compatible(tree, node, b"multiboot,module")
        || is_compatible(tree, node, b"xen,multiboot-module")
        || is_compatible(tree, node, b"multiboot,kernel")
        || is_compatible(tree, node, b"multiboot,ramdisk")
        || is_compatible(tree, node, b"multiboot,device-tree")
}

/// Whether a node has a role.
fn has_role(tree: &Tree, node: NodeId, role: Role) -> bool
    requires { node < length tree.now.places }
    ensures { result ≡ has_role role (node_of tree.now node) }
{
    match role {
        Role::Memory => is_memory(tree, node),
        Role::Reserved => has(tree, node, b"reg"),
        Role::Module => is_module(tree, node),
        Role::Domain => is_compatible(tree, node, b"xen,domain"),
        Role::Channel => is_compatible(tree, node, b"xen,evtchn-v1"),
    }
}

/// The children of a node that have a role, in order.
pub(crate) fn children_with(
    alloc: Global,
    tree: &Tree,
    node: NodeId,
    role: Role,
) -> Result<List<NodeId>, AllocError>
    requires { node < length tree.now.places }
    ensures { IfOk result (λ nodes. Are tree.now (filter (has_role role) (children (node_of tree.now node))) nodes) }
{
    let all = children(alloc, tree, node)?;
    let mut kept = List::new(alloc);
    for child in all.as_slice() {
        if has_role(tree, *child, role) {
            kept.push(*child)?;
        }
    }
    Ok(kept)
}

/// The cells of an address and of a size in the `reg` of a node's children (Devicetree Specification 0.4, 2.3.5), where
/// they are good.
pub(crate) fn cells_below(tree: &Tree, node: NodeId) -> Option<(u32, u32)>
    requires { node < length tree.now.places }
    ensures cells { result ≡ cells_of (properties_of tree.now node) }
    ensures within { IfSome result (λ counts. (1 ≤ counts.0) × (counts.0 ≤ 2) × (1 ≤ counts.1) × (counts.1 ≤ 2)) }
{
    match cell_count(tree, node, b"#address-cells", 2) {
        None => None,
        Some(address) => match cell_count(tree, node, b"#size-cells", 1) {
            None => None,
            Some(size) => Some((address, size)),
        },
    }
}

/// Children of one node, and the cells in which their `reg` is counted.
#[derive(Drop)]
pub(crate) struct Siblings {
    pub(crate) nodes: List<NodeId>,
    pub(crate) cells: Option<(u32, u32)>,
}

/// The children of a node that have a role, with their cells.
pub(crate) fn siblings_with(
    alloc: Global,
    tree: &Tree,
    node: NodeId,
    role: Role,
) -> Result<Siblings, AllocError>
    requires { node < length tree.now.places }
    ensures nodes { IfOk result (λ found. Are tree.now (filter (has_role role) (children (node_of tree.now node))) found.nodes) }
    ensures cells { IfOk result (λ found. All (λ n. (node_of tree.now n).cells ≡ found.cells) found.nodes) }
    ensures within { IfOk result (λ found. IfSome found.cells (λ counts. (1 ≤ counts.0) × (counts.0 ≤ 2) × (1 ≤ counts.1) × (counts.1 ≤ 2))) }
{
    let nodes = children_with(alloc, tree, node, role)?;
    let cells = cells_below(tree, node);
    Ok(Siblings { nodes, cells })
}

/// The children, of the node that a path finds, that have a role, in order.
pub(crate) fn found_with(
    alloc: Global,
    tree: &Tree,
    path: &[u8],
    role: Role,
) -> Result<Siblings, AllocError>
    ensures nodes { IfOk result (λ found. Are tree.now (filter (has_role role) (option_map_or children (node_found tree.now.tree path.now) [])) found.nodes) }
    ensures cells { IfOk result (λ found. All (λ n. (node_of tree.now n).cells ≡ found.cells) found.nodes) }
    ensures within { IfOk result (λ found. IfSome found.cells (λ counts. (1 ≤ counts.0) × (counts.0 ≤ 2) × (1 ≤ counts.1) × (counts.1 ≤ 2))) }
{
    match found(tree, path) {
        None => Ok(Siblings {
            nodes: List::new(alloc),
            cells: None,
        }),
        Some(node) => siblings_with(alloc, tree, node, role),
    }
}

// The host's node that a device stands for.
ghost use Rattle.std.specs.Prelude.{◌≡◌, ◌<◌, length, IfSome, option_map};
ghost use Rattle.fdt_tree.specs.Document.{properties_of as properties};
ghost use Rattle.fdt_nodes.specs.Held.{node_of};
ghost use Rattle.passthrough_dtb.specs.Devices.{host_node};

use fdt_nodes::{PathIndex, string_at};
use fdt_tree::{NodeId, Tree};

/// The host's node that a device stands for, if there is one.
pub(crate) fn host_node(partial: &Tree, device: NodeId, host: &PathIndex) -> Option<NodeId>
    requires { device < length partial.now.places }
    ensures live { IfSome result (λ node. node < length host.now.places) }
    ensures node { option_map (node_of host.now) result ≡ host_node host.now.tree (properties partial.now device) }
{
    match string_at(partial, device, b"xen,path") {
        None => None,
        Some(path) => host.find(path),
    }
}

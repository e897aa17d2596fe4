// The nodes that fragments of an overlay are merged into.
ghost use Rattle.std.specs.Prelude.{◌≡◌, ◌<◌, IfSome, length, option_map};
ghost use Rattle.fdt_tree.specs.Document.{place_of, properties_of};
ghost use Rattle.overlaid_trees.specs.Merge.{target_of};

use fdt_nodes::string_at;
use fdt_tree::{NodeId, Tree, u32_of};
use indexed_tree::{IndexedNode, IndexedTree};

/// The node that a fragment is merged into: by its `target`, or without one by its `target-path`.
pub(crate) fn find_target(
    tree: &IndexedTree,
    overlay: &Tree,
    fragment: NodeId,
) -> Option<IndexedNode>
    requires { fragment < length overlay.now.places }
    ensures live { IfSome result (λ node. node < length tree.now.places) }
    ensures place { option_map (λ node. place_of tree.now node) result ≡ target_of tree.now.tree (properties_of overlay.now fragment) }
{
    match overlay.prop(fragment, b"target") {
        Some(value) => match u32_of(value) {
            Ok(phandle) => tree.holder(phandle),
            Err(_) => None,
        },
        None => match string_at(overlay, fragment, b"target-path") {
            Some(path) => tree.find(path),
            None => None,
        },
    }
}
